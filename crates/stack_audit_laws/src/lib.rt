// The types of the stack's audit. Definitions in specs/, laws in proofs/, no code.
#![tactic(auto)]

// The block that goes on, its length 0 where none does, and the next byte's offset in it; the totals so far.
#[derive(Clone, Copy)]
pub struct Walk {
    pub len: u32,
    pub i: u32,
    pub blocks: u32,
    pub live: u32,
    pub written: u32,
}

// A run of bytes: how many, and how many of them are written.
#[derive(Clone, Copy)]
pub struct Run {
    pub n: usize,
    pub written: u32,
}

// A turn that goes on: the walk past some bytes, and how many.
#[derive(Clone, Copy)]
pub struct Moved {
    pub walk: Walk,
    pub n: usize,
}
