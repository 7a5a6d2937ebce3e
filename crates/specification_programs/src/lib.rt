// Document 01, the calls program, and S-4's: definitions in specs/, and in proofs/ that what the programs are proved against is the same. To be read
// beside the papers, above crates/specification and crates/specification_origins: Records, Lines, Programs. Program is what the contracts of the
// programs cite.
#![tactic(auto)]
