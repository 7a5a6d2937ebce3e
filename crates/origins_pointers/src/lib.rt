// Any call of pointers.
#![tactic(auto)]

ghost use Rattle.std.specs.Prelude.{◌≡◌, ℕ};
ghost use Rattle.origins_base.specs.Answers.{lent, outcome_at, pointer_of};
ghost use Rattle.origins_base.specs.Calls.{call};

use map::Map;
use monitor_base::Answer;
use origins_base::Pointer;
use origins_copy::copy;
use origins_live::live;
use origins_point::point;

pub fn pointer_step(
    pointer: Pointer,
    map: Map,
    heap: &[u8],
    primary: &[u8],
    secondary: &[u8],
    heap_cells: &mut [u8],
    stack_cells: &mut [u8],
) -> Answer
    ensures { (k : ℕ) → outcome_at k result heap.now primary.now secondary.now heap_cells.new stack_cells.new
        ≡ call map (pointer_of pointer)
        (lent heap.now primary.now secondary.now heap_cells.old stack_cells.old k) }
{
    match pointer {
        Pointer::Point(cell, a) => point(
            map,
            heap,
            primary,
            secondary,
            heap_cells,
            stack_cells,
            cell,
            a,
        ),
        Pointer::Copy(to, from) => copy(
            map,
            heap,
            primary,
            secondary,
            heap_cells,
            stack_cells,
            to,
            from,
        ),
        Pointer::Live(cell, a) => live(
            map,
            heap,
            primary,
            secondary,
            heap_cells,
            stack_cells,
            cell,
            a,
        ),
    }
}
