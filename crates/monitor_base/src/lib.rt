// What every call of the monitor rests on: its answer, the check of map and lengths, and where an area ends.
#![tactic(auto)]

pub mod guard;
pub mod locating;

ghost use Rattle.std.specs.Prelude.{◌≡◌};
ghost use Rattle.monitor_base.specs.Refusals.{code_of};

use map::{Address, Position};
use plain::Beginning;

// The number, 0 for accepted, and the answer fields in their order, zero where unused.
#[derive(Clone, Copy)]
pub struct Answer {
    pub number: u32,
    pub first: u32,
    pub second: u32,
    pub third: u32,
    pub fourth: u32,
}

// Why a call is refused.
#[derive(Clone, Copy, PartialEq, Eq)]
pub enum Refusal {
    // The map breaks a rule.
    BadMap,
    // A shadow or the cells have not the length that the map asks for.
    BadLength,
    // A length or a count of bytes is 0.
    Empty,
    // The address, or the block, lies in no area that may hold it.
    Outside,
    Misaligned,
    // The block's place is not free.
    Occupied,
    NoBlock,
    Damaged,
    // The program has no shadows of the map's sizes.
    TooLarge,
    // A pointer cannot stand in the cell.
    NoPointer,
    // No origin is left for the block.
    NoOrigin,
    // A literal may not be written.
    Literal,
    // No gap fits.
    NoGap,
    // Of the stack nothing may be freed.
    NotHeap,
}

impl Refusal {
    // Its number in the answers.
    pub fn number(self) -> u32
        ensures { result ≡ code_of self }
    {
        match self {
            Refusal::BadMap => 1,
            Refusal::BadLength => 2,
            Refusal::Empty => 3,
            Refusal::Outside => 4,
            Refusal::Misaligned => 5,
            Refusal::Occupied => 6,
            Refusal::NoBlock => 7,
            Refusal::Damaged => 8,
            Refusal::TooLarge => 10,
            Refusal::NoPointer => 11,
            Refusal::NoOrigin => 12,
            Refusal::Literal => 13,
            Refusal::NoGap => 14,
            Refusal::NotHeap => 15,
        }
    }
}

// The calls that only read. Place, which the form with origins has not, is no Query: see PlainCall.
#[derive(Clone, Copy)]
pub enum Query {
    Ask(Address),
    // May n bytes from the first address on be read, in the block of the second; where the flag is set, may they be written as well.
    Valid(bool, Address, u32, Address),
    Initialised(Address, u32),
    Next(Address),
    Audit,
}

// The calls that write.
#[derive(Clone, Copy)]
pub enum Update {
    Clear,
    Begin(Beginning, Address, u32),
    Free(Address),
    Remove(Address),
    Written(Address, u32),
}

// The calls that every form has.
#[derive(Clone, Copy)]
pub enum Call {
    Query(Query),
    Update(Update),
}

// Any call of player and desk: place, of a length and a budget, has no kind, and the form with origins has it not.
#[derive(Clone, Copy)]
pub enum PlainCall {
    Call(Call),
    Place(u32, u32),
}

// The block that a call ends: its position and length.
#[derive(Clone, Copy)]
pub struct Block {
    pub base: Position,
    pub length: u32,
}
