// Samples of the specification (crates/specification), which the checker computes: first those that document 01 marks, with its worked example. No
// functions.
#![tactic(auto)]
