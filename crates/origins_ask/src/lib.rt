// The call that tells of an address, in the form with origins: it only adds that the cells fit.
#![tactic(auto)]

ghost use Rattle.std.specs.Prelude.{◌≡◌, ℕ};
ghost use Rattle.plain.specs.Call as base;
ghost use Rattle.origins_list.specs.Call.{plain};
ghost use Rattle.origins_base.specs.Answers.{lent, outcome_at};
ghost use Rattle.origins_base.specs.Calls.{call};

use map::{Address, Form, Map};
use monitor_base::Answer;
use monitor_base::guard::refusal;
use origins_base::guard::{cells_fit, unfit};

// Base, length, offset, and 1 where the byte is written or else 0.
pub fn ask(
    map: Map,
    heap: &[u8],
    primary: &[u8],
    secondary: &[u8],
    heap_cells: &[u8],
    stack_cells: &[u8],
    a: Address,
) -> Answer
    ensures { (k : ℕ) → outcome_at k result heap.now primary.now secondary.now heap_cells.now stack_cells.now
        ≡ call map (plain (base.ask a.0))
        (lent heap.now primary.now secondary.now heap_cells.now stack_cells.now k) }
{
    if !cells_fit(map, heap_cells.len(), stack_cells.len()) {
        return refusal(unfit(map));
    }
    monitor_ask::ask(Form::Player, map, heap, primary, secondary, a)
}
