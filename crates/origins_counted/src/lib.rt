// Clear and written, which leave the counter, with the counter.
#![tactic(auto)]

ghost use Rattle.std.specs.Prelude.{◌≡◌};
ghost use Rattle.plain.specs.Call as calls;
ghost use Rattle.origins_list.specs.Call.{plain};
ghost use Rattle.origins_base.specs.Answers.{lent, outcome};
ghost use Rattle.origins_base.specs.Calls.{call};

use map::{Address, Map};
use origins_base::Counted;

pub fn clear(
    map: Map,
    heap: &mut [u8],
    primary: &mut [u8],
    secondary: &mut [u8],
    heap_cells: &mut [u8],
    stack_cells: &mut [u8],
    counter: u64,
) -> Counted
    ensures { outcome result heap.new primary.new secondary.new heap_cells.new stack_cells.new
        ≡ call map (plain calls.clear)
        (lent heap.old primary.old secondary.old heap_cells.old stack_cells.old counter) }
{
    let answer = origins_clear::clear(map, heap, primary, secondary, heap_cells, stack_cells);
    Counted { answer, counter }
}

pub fn written(
    map: Map,
    heap: &mut [u8],
    primary: &mut [u8],
    secondary: &mut [u8],
    heap_cells: &mut [u8],
    stack_cells: &mut [u8],
    counter: u64,
    a: Address,
    n: u32,
) -> Counted
    ensures { outcome result heap.new primary.new secondary.new heap_cells.new stack_cells.new
        ≡ call map (plain (calls.written a.0 n))
        (lent heap.old primary.old secondary.old heap_cells.old stack_cells.old counter) }
{
    let answer = origins_written::written(
        map,
        heap,
        primary,
        secondary,
        heap_cells,
        stack_cells,
        a,
        n,
    );
    Counted { answer, counter }
}
