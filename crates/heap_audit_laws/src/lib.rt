// The types of the heap's audit. Definitions in specs/, laws in proofs/, no code.
#![tactic(auto)]

// The length of the block that goes on, 0 where none does, and the offset d of the segment in it; blocks, live bytes and written bytes so far.
#[derive(Clone, Copy)]
pub struct Walk {
    pub len: u32,
    pub d: u32,
    pub blocks: u32,
    pub live: u32,
    pub written: u32,
}

// The walk as it stands at segment s, some turns ahead.
#[derive(Clone, Copy)]
pub struct Ahead {
    pub s: usize,
    pub w: Walk,
}
