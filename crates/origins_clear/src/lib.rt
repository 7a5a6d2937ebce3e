// Clears shadows and cells; the counter stays.
#![tactic(auto)]

ghost use Rattle.std.specs.Prelude.{◌≡◌, ℕ};
ghost use Rattle.plain.specs.Call as calls;
ghost use Rattle.origins_list.specs.Call.{plain};
ghost use Rattle.origins_base.specs.Answers.{lent, outcome_at};
ghost use Rattle.origins_base.specs.Calls.{call};

use map::{Form, Map};
use monitor_base::Answer;
use monitor_base::guard::refusal;
use origins_base::guard::{cells_fit, unfit};

// All shadows and all cells zero.
pub fn clear(
    map: Map,
    heap: &mut [u8],
    primary: &mut [u8],
    secondary: &mut [u8],
    heap_cells: &mut [u8],
    stack_cells: &mut [u8],
) -> Answer
    ensures { (k : ℕ) → outcome_at k result heap.new primary.new secondary.new heap_cells.new stack_cells.new
        ≡ call map (plain calls.clear)
        (lent heap.old primary.old secondary.old heap_cells.old stack_cells.old k) }
{
    if !cells_fit(map, heap_cells.len(), stack_cells.len()) {
        return refusal(unfit(map));
    }
    let answer = monitor_clear::clear(Form::Player, map, heap, primary, secondary);
    // The number stands in the answer that the plain form's call promises: 0 for accepted.
    if answer.number != 0 {
        return answer;
    }
    number_zeros::fill_zero(heap_cells);
    number_zeros::fill_zero(stack_cells);
    answer
}
