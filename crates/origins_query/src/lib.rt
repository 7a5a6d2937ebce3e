// Any call of the plain form that only reads, in the form with origins.
#![tactic(auto)]

ghost use Rattle.std.specs.Prelude.{◌≡◌, ℕ};
ghost use Rattle.monitor_base.specs.Answers.{query_of};
ghost use Rattle.origins_list.specs.Call.{plain};
ghost use Rattle.origins_base.specs.Answers.{lent, outcome_at};
ghost use Rattle.origins_base.specs.Calls.{call};

use map::Map;
use monitor_base::{Answer, Query};
use origins_ask::ask;
use origins_questions::{audit, initialised, next, valid};

pub fn query_step(
    query: Query,
    map: Map,
    heap: &[u8],
    primary: &[u8],
    secondary: &[u8],
    heap_cells: &[u8],
    stack_cells: &[u8],
) -> Answer
    ensures { (k : ℕ) → outcome_at k result heap.now primary.now secondary.now heap_cells.now stack_cells.now
        ≡ call map (plain (query_of query))
        (lent heap.now primary.now secondary.now heap_cells.now stack_cells.now k) }
{
    match query {
        Query::Ask(a) => ask(map, heap, primary, secondary, heap_cells, stack_cells, a),
        Query::Valid(write, a, n, from) => valid(
            map,
            heap,
            primary,
            secondary,
            heap_cells,
            stack_cells,
            a,
            n,
            from,
            write,
        ),
        Query::Initialised(a, n) => initialised(
            map,
            heap,
            primary,
            secondary,
            heap_cells,
            stack_cells,
            a,
            n,
        ),
        Query::Next(a) => next(map, heap, primary, secondary, heap_cells, stack_cells, a),
        Query::Audit => audit(map, heap, primary, secondary, heap_cells, stack_cells),
    }
}
