// Marks bytes as written in the form with origins, which only adds that the cells fit.
#![tactic(auto)]

ghost use Rattle.std.specs.Prelude.{◌≡◌, ℕ};
ghost use Rattle.plain.specs.Call as calls;
ghost use Rattle.origins_list.specs.Call.{plain};
ghost use Rattle.origins_base.specs.Answers.{lent, outcome_at};
ghost use Rattle.origins_base.specs.Calls.{call};

use map::{Address, Form, Map};
use monitor_base::Answer;
use monitor_base::guard::refusal;
use origins_base::guard::{cells_fit, unfit};

// The n bytes from an address on become written; only their written bits change.
pub fn written(
    map: Map,
    heap: &mut [u8],
    primary: &mut [u8],
    secondary: &mut [u8],
    heap_cells: &[u8],
    stack_cells: &[u8],
    a: Address,
    n: u32,
) -> Answer
    ensures { (k : ℕ) → outcome_at k result heap.new primary.new secondary.new heap_cells.now stack_cells.now
        ≡ call map (plain (calls.written a.0 n))
        (lent heap.old primary.old secondary.old heap_cells.now stack_cells.now k) }
{
    if !cells_fit(map, heap_cells.len(), stack_cells.len()) {
        return refusal(unfit(map));
    }
    monitor_written::written(Form::Player, map, heap, primary, secondary, a, n)
}
