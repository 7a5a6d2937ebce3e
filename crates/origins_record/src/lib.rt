// Records a block in the form with origins: with no byte written, with every byte, or as a literal.
#![tactic(auto)]

ghost use Rattle.std.specs.Prelude.{◌≡◌, ◌≢◌, ◌≤◌, MatchResult};
ghost use Rattle.plain.specs.Call as calls;
ghost use Rattle.origins_list.specs.Call.{plain};
ghost use Rattle.origins_base.specs.Answers.{lent, outcome};
ghost use Rattle.origins_base.specs.Calls.{call};
ghost use Rattle.monitor_base.specs.Answers.{answer_of};
ghost use Rattle.monitor_base.specs.Refusals.{code_of, told_of};
ghost use Rattle.origins_write_laws.specs.Checks as checks;

use map::{Address, Map};
use monitor_base::Refusal;
use monitor_base::guard::{accepted, refusal};
use origins_base::Counted;
use plain::Beginning;

// The answer, and the counter, which counts where nothing is refused.
fn counted(begun: Result<(), Refusal>, counter: u64) -> Counted
    requires { MatchResult begun (λ _. counter ≤ 4294967295) (λ refused. code_of refused ≢ 0) }
    ensures { (result.counter ≡ checks.counted (told_of begun) counter) × (answer_of result.answer ≡ calls.refusal (told_of begun)) }
{
    match begun {
        Ok(()) => Counted {
            answer: accepted(),
            counter: counter + 1,
        },
        Err(refused) => Counted {
            answer: refusal(refused),
            counter,
        },
    }
}

// The block joins, and its origin stands in the cell of its base.
pub fn begin(
    map: Map,
    heap: &mut [u8],
    primary: &mut [u8],
    secondary: &mut [u8],
    heap_cells: &mut [u8],
    stack_cells: &mut [u8],
    counter: u64,
    base: Address,
    len: u32,
    how: Beginning,
) -> Counted
    ensures { outcome result heap.new primary.new secondary.new heap_cells.new stack_cells.new
        ≡ call map (plain (calls.begin how base.0 len))
        (lent heap.old primary.old secondary.old heap_cells.old stack_cells.old counter) }
{
    let begun = origins_begin::begin(
        map,
        heap,
        primary,
        secondary,
        heap_cells,
        stack_cells,
        counter,
        base,
        len,
        how,
    );
    counted(begun, counter)
}
