// Theory: definitions in specs/, laws in proofs/, no code.
#![tactic(auto)]
