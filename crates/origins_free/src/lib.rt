// Frees a block of the heap in the form with origins: the check, then the effect on shadow and cells.
#![tactic(auto)]

ghost use Rattle.std.specs.Prelude.{◌≡◌, ℕ};
ghost use Rattle.plain.specs.Call as calls;
ghost use Rattle.origins_list.specs.Call.{plain};
ghost use Rattle.origins_base.specs.Answers.{lent, outcome_at};
ghost use Rattle.origins_base.specs.Calls.{call};

use map::{Address, Form, Map};
use monitor_base::Answer;
use monitor_base::guard::{accepted, refusal};
use monitor_free_check::check;
use origins_base::guard::checked;

// Zeroes the shadow of the block and of its header, and each cell that touches the block. Address 0, C's null pointer, is accepted and nothing changes; of
// the stack nothing may be freed.
pub fn free(
    map: Map,
    heap: &mut [u8],
    primary: &[u8],
    secondary: &[u8],
    heap_cells: &mut [u8],
    stack_cells: &[u8],
    base: Address,
) -> Answer
    ensures { (k : ℕ) → outcome_at k result heap.new primary.now secondary.now heap_cells.new stack_cells.now
        ≡ call map (plain (calls.free base.0))
        (lent heap.old primary.now secondary.now heap_cells.old stack_cells.now k) }
{
    if let Err(refused) = checked(
        map,
        heap.len(),
        primary.len(),
        secondary.len(),
        heap_cells.len(),
        stack_cells.len(),
    ) {
        return refusal(refused);
    }
    match check(Form::Player, map, heap, primary, secondary, base) {
        Ok(Some(block)) => {
            heap_place::erase(Form::Player, heap, block.base, block.length);
            cells_zero::zero(heap_cells, block.base, block.length);
            accepted()
        }
        Ok(None) => accepted(),
        Err(refused) => refusal(refused),
    }
}
