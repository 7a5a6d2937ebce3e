// What the calls program reads, serves and writes: definitions in specs/, laws in proofs/, no code but these types.
#![tactic(auto)]

use map::Map;
use monitor_base::{Answer, Call};

// What a record asks for.
#[derive(Clone, Copy)]
pub enum Request {
    NewMap(Map),
    Call(Call),
}

// The map that holds after a request, and its answer.
#[derive(Clone, Copy)]
pub struct Served {
    pub map: Map,
    pub answer: Answer,
}
