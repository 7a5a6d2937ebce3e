// What every call of the form with origins rests on: its calls, its answer, and the check of map and lengths.
#![tactic(auto)]

pub mod guard;

use map::Address;
use monitor_base::Answer;

// The calls of pointers: of a cell and an address, or of two cells.
#[derive(Clone, Copy)]
pub enum Pointer {
    // The pointer in a cell is set to the block that holds the address, or to none.
    Point(Address, Address),
    // The pointer in the first cell is set as that in the second.
    Copy(Address, Address),
    // Whether the allocation that the pointer in a cell was last set to is live and holds the address.
    Live(Address, Address),
}

#[derive(Clone, Copy)]
pub enum OriginsCall {
    Plain(monitor_base::Call),
    Pointer(Pointer),
}

// The answer, and the counter after the call.
#[derive(Clone, Copy)]
pub struct Counted {
    pub answer: Answer,
    pub counter: u64,
}
