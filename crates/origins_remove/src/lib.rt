// Removes a block of the stack in the form with origins: the check, then the effect on shadows and cells.
#![tactic(auto)]

ghost use Rattle.std.specs.Prelude.{◌≡◌, ℕ};
ghost use Rattle.plain.specs.Call as calls;
ghost use Rattle.origins_list.specs.Call.{plain};
ghost use Rattle.origins_base.specs.Answers.{lent, outcome_at};
ghost use Rattle.origins_base.specs.Calls.{call};

use map::{Address, Form, Map};
use monitor_base::Answer;
use monitor_base::guard::{accepted, refusal};
use monitor_remove_check::check;
use origins_base::guard::checked;

// Zeroes both shadows of the block, and each cell that touches it.
pub fn remove(
    map: Map,
    heap: &[u8],
    primary: &mut [u8],
    secondary: &mut [u8],
    heap_cells: &[u8],
    stack_cells: &mut [u8],
    base: Address,
) -> Answer
    ensures { (k : ℕ) → outcome_at k result heap.now primary.new secondary.new heap_cells.now stack_cells.new
        ≡ call map (plain (calls.remove base.0))
        (lent heap.now primary.old secondary.old heap_cells.now stack_cells.old k) }
{
    if let Err(refused) = checked(
        map,
        heap.len(),
        primary.len(),
        secondary.len(),
        heap_cells.len(),
        stack_cells.len(),
    ) {
        return refusal(refused);
    }
    match check(Form::Player, map, heap, primary, secondary, base) {
        Ok(block) => {
            stack_place::erase(primary, secondary, block.base, block.length);
            cells_zero::zero(stack_cells, block.base, block.length);
            accepted()
        }
        Err(refused) => refusal(refused),
    }
}
