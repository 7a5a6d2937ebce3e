// Sets the pointer in a cell to the block that holds an address: the check, then the effect.
#![tactic(auto)]

ghost use Rattle.std.specs.Prelude.{◌≡◌, ℕ};
ghost use Rattle.origins_list.specs.Call as form;
ghost use Rattle.origins_base.specs.Answers.{lent, outcome_at};
ghost use Rattle.origins_base.specs.Calls.{call};

use map::{Address, Map};
use monitor_base::{Answer, guard};
use origins_cells::set_referent;
use origins_point_check::check;

// The referent becomes the origin of that block, or 0, for no block.
pub fn point(
    map: Map,
    heap: &[u8],
    primary: &[u8],
    secondary: &[u8],
    heap_cells: &mut [u8],
    stack_cells: &mut [u8],
    cell: Address,
    a: Address,
) -> Answer
    ensures { (k : ℕ) → outcome_at k result heap.now primary.now secondary.now heap_cells.new stack_cells.new
        ≡ call map (form.point cell.0 a.0) (lent heap.now primary.now secondary.now heap_cells.old stack_cells.old k) }
{
    match check(
        map,
        heap,
        primary,
        secondary,
        heap_cells,
        stack_cells,
        cell,
        a,
    ) {
        Ok(aim) => {
            set_referent(heap_cells, stack_cells, aim.place, aim.origin);
            guard::accepted()
        }
        Err(refused) => guard::refusal(refused),
    }
}
