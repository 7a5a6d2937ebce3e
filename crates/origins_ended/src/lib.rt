// The calls that end a block, which leave the counter, with the counter.
#![tactic(auto)]

ghost use Rattle.std.specs.Prelude.{◌≡◌};
ghost use Rattle.plain.specs.Call as calls;
ghost use Rattle.origins_list.specs.Call.{plain};
ghost use Rattle.origins_base.specs.Answers.{lent, outcome};
ghost use Rattle.origins_base.specs.Calls.{call};

use map::{Address, Map};
use origins_base::Counted;

pub fn free(
    map: Map,
    heap: &mut [u8],
    primary: &[u8],
    secondary: &[u8],
    heap_cells: &mut [u8],
    stack_cells: &[u8],
    counter: u64,
    base: Address,
) -> Counted
    ensures { outcome result heap.new primary.now secondary.now heap_cells.new stack_cells.now
        ≡ call map (plain (calls.free base.0))
        (lent heap.old primary.now secondary.now heap_cells.old stack_cells.now counter) }
{
    let answer = origins_free::free(map, heap, primary, secondary, heap_cells, stack_cells, base);
    Counted { answer, counter }
}

pub fn remove(
    map: Map,
    heap: &[u8],
    primary: &mut [u8],
    secondary: &mut [u8],
    heap_cells: &[u8],
    stack_cells: &mut [u8],
    counter: u64,
    base: Address,
) -> Counted
    ensures { outcome result heap.now primary.new secondary.new heap_cells.now stack_cells.new
        ≡ call map (plain (calls.remove base.0))
        (lent heap.now primary.old secondary.old heap_cells.now stack_cells.old counter) }
{
    let answer = origins_remove::remove(
        map,
        heap,
        primary,
        secondary,
        heap_cells,
        stack_cells,
        base,
    );
    Counted { answer, counter }
}
