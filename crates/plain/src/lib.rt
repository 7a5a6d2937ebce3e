// What the layouts answer, by positions. The theory of lists of blocks stands in specs/ and proofs/.
#![tactic(auto)]

use map::Position;
pub use types::Beginning;

// The reading of a position: base, length, offset, and two bits: 1 where the byte is written, 2 where its block is a literal.
#[derive(Clone, Copy)]
pub enum Reading {
    Nothing,
    Block(Position, u32, u32, u8),
    Damaged,
}

// The totals of the blocks of one area, where its shadow is the image of a list.
#[derive(Clone, Copy)]
pub struct Totals {
    pub blocks: u32,
    pub live: u32,
    pub written: u32,
}
