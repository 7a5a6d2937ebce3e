// What the calls of pointers share: what the check of a call that writes found, and what readings refuse.
#![tactic(auto)]

ghost use Rattle.std.specs.Prelude.{◌≡◌};
ghost use Rattle.plain.specs.Answers.{reading_of};
ghost use Rattle.monitor_base.specs.Refusals.{Decides};
ghost use Rattle.origins_laws.specs.Pointers.{holds_pointer, point_refusal, copy_refusal};

use map::{Address, Located};
use monitor_base::Refusal;
use monitor_reading::{damaged, in_one};
use plain::Reading;

// Where the cell lies, and the origin that its referent is set to.
#[derive(Clone, Copy)]
pub struct Aim {
    pub place: Located,
    pub origin: u32,
}

// Whether a pointer can stand in a cell, by the reading of its first byte: its four bytes lie in one block.
fn holds_pointer(cell: Address, r: Reading) -> bool
    ensures { result ≡ holds_pointer cell.0 (reading_of r) }
{
    (cell.0 % 4 == 0) & in_one(r, 4)
}

// By the readings of a cell and of an address.
pub fn point_refusal(cell: Address, held: Reading, told: Reading) -> Result<(), Refusal>
    ensures { Decides (point_refusal cell.0 (reading_of held) (reading_of told)) result }
{
    let pointer = holds_pointer(cell, held);
    let damage = damaged(held) | damaged(told);
    if damage {
        return Err(Refusal::Damaged);
    }
    if pointer {
        Ok(())
    } else {
        Err(Refusal::NoPointer)
    }
}

// By the readings of two cells.
pub fn copy_refusal(
    to: Address,
    from: Address,
    there: Reading,
    held: Reading,
) -> Result<(), Refusal>
    ensures { Decides (copy_refusal to.0 from.0 (reading_of there) (reading_of held)) result }
{
    let pointers = holds_pointer(to, there) & holds_pointer(from, held);
    let damage = damaged(there) | damaged(held);
    if damage {
        return Err(Refusal::Damaged);
    }
    if pointers {
        Ok(())
    } else {
        Err(Refusal::NoPointer)
    }
}
