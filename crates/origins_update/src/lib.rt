// Any call of the plain form that writes, in the form with origins.
#![tactic(auto)]

ghost use Rattle.std.specs.Prelude.{◌≡◌};
ghost use Rattle.monitor_base.specs.Answers.{update_of};
ghost use Rattle.origins_list.specs.Call.{plain};
ghost use Rattle.origins_base.specs.Answers.{lent, outcome};
ghost use Rattle.origins_base.specs.Calls.{call};

use map::Map;
use monitor_base::Update;
use origins_base::Counted;
use origins_counted::{clear, written};
use origins_ended::{free, remove};
use origins_record::begin;

pub fn update_step(
    update: Update,
    map: Map,
    heap: &mut [u8],
    primary: &mut [u8],
    secondary: &mut [u8],
    heap_cells: &mut [u8],
    stack_cells: &mut [u8],
    counter: u64,
) -> Counted
    ensures { outcome result heap.new primary.new secondary.new heap_cells.new stack_cells.new
        ≡ call map (plain (update_of update))
        (lent heap.old primary.old secondary.old heap_cells.old stack_cells.old counter) }
{
    match update {
        Update::Clear => clear(
            map,
            heap,
            primary,
            secondary,
            heap_cells,
            stack_cells,
            counter,
        ),
        Update::Begin(how, base, length) => begin(
            map,
            heap,
            primary,
            secondary,
            heap_cells,
            stack_cells,
            counter,
            base,
            length,
            how,
        ),
        Update::Free(base) => free(
            map,
            heap,
            primary,
            secondary,
            heap_cells,
            stack_cells,
            counter,
            base,
        ),
        Update::Remove(base) => remove(
            map,
            heap,
            primary,
            secondary,
            heap_cells,
            stack_cells,
            counter,
            base,
        ),
        Update::Written(a, n) => written(
            map,
            heap,
            primary,
            secondary,
            heap_cells,
            stack_cells,
            counter,
            a,
            n,
        ),
    }
}
