// Begins a block in the form with origins: the check, then the effect.
#![tactic(auto)]

ghost use Rattle.std.specs.Prelude.{◌≡◌, ◌≢◌, ◌≤◌, MatchResult};
ghost use Rattle.plain.specs.Call as calls;
ghost use Rattle.monitor_base.specs.Refusals.{code_of, told_of};
ghost use Rattle.origins_list.specs.Call.{plain};
ghost use Rattle.origins_base.specs.Answers.{lent};
ghost use Rattle.origins_base.specs.Calls.{State, call};
ghost use Rattle.origins_write_laws.specs.Checks.{counted};

use map::{Address, Form, Map};
use monitor_base::Refusal;
use monitor_stamp::stamp;
use origins_cells::set_origin;
use origins_record_check::check;
use plain::Beginning;

// Its origin, in the cell of its base, is what the counter stands at, however it begins. Whether it was accepted, alone: an answer and a counter in
// memory would cost more than the check of the counter.
pub fn begin(
    map: Map,
    heap: &mut [u8],
    primary: &mut [u8],
    secondary: &mut [u8],
    heap_cells: &mut [u8],
    stack_cells: &mut [u8],
    counter: u64,
    base: Address,
    len: u32,
    how: Beginning,
) -> Result<(), Refusal>
    ensures { ◌≡◌ {A = State × calls.Answer}
        (lent heap.new primary.new secondary.new heap_cells.new stack_cells.new (counted (told_of result) counter), calls.refusal (told_of result))
        (call map (plain (calls.begin how base.0 len))
        (lent heap.old primary.old secondary.old heap_cells.old stack_cells.old counter))
        × MatchResult result (λ _. counter ≤ 4294967295) (λ refused. code_of refused ≢ 0) }
{
    let place = check(
        map,
        heap,
        primary,
        secondary,
        heap_cells,
        stack_cells,
        counter,
        base,
        len,
        how,
    )?;
    stamp(Form::Player, heap, primary, secondary, place, len, how);
    set_origin(heap_cells, stack_cells, place, counter as u32);
    Ok(())
}
