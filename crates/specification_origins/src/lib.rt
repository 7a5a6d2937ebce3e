// Document 02, S-4: the form with origins, above crates/specification. Definitions in specs/, and in proofs/ that what the library is proved against is
// the same. To be read beside the paper: Cells, Origins, OriginsList, History.
#![tactic(auto)]
