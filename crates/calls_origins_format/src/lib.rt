// What the calls program of the form with origins reads, serves and writes: definitions in specs/, laws in proofs/, no code but these types.
#![tactic(auto)]

use map::Map;
use monitor_base::Answer;
use origins_base::Pointer;

// What a record asks for: what it may in the plain program, or a call of pointers.
#[derive(Clone, Copy)]
pub enum Request {
    Plain(calls_format::Request),
    Pointer(Pointer),
}

// The map and the counter that hold after a request, and its answer.
#[derive(Clone, Copy)]
pub struct Served {
    pub map: Map,
    pub answer: Answer,
    pub counter: u64,
}
