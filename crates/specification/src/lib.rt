// Documents 01 and 02 in their own order: definitions in specs/, and in proofs/ that what the library is proved against is the same. To be read beside
// the papers, with crates/types: Numbers, Map, Form, Heap, Stack, Readings, Footprint, Calls, Place, Blocks, PlainList, Image, Audit, Call, Desk.
#![tactic(auto)]
