// The laws that the code of the stack layout rests on; there is no code here.
#![tactic(auto)]
