// Any call that only reads.
#![tactic(auto)]

ghost use Rattle.std.specs.Prelude.{◌≡◌};
ghost use Rattle.map.specs.FormMap.{under};
ghost use Rattle.monitor_base.specs.Answers.{outcome, query_of};
ghost use Rattle.monitor_base.specs.Calls.{call};

use map::{Form, Map};
use monitor_ask::ask;
use monitor_audit::audit;
use monitor_base::{Answer, Query};
use monitor_initialised::initialised;
use monitor_next::next;
use monitor_valid::valid;

pub fn query_step(
    query: Query,
    form: Form,
    map: Map,
    heap: &[u8],
    primary: &[u8],
    secondary: &[u8],
) -> Answer
    ensures { outcome result heap.now primary.now secondary.now
        ≡ call (under form map) (query_of query) (heap.now, (primary.now, secondary.now)) }
{
    match query {
        Query::Ask(a) => ask(form, map, heap, primary, secondary, a),
        Query::Valid(write, a, n, from) => valid(
            form, map, heap, primary, secondary, a, n, from, write,
        ),
        Query::Initialised(a, n) => initialised(form, map, heap, primary, secondary, a, n),
        Query::Next(a) => next(form, map, heap, primary, secondary, a),
        Query::Audit => audit(form, map, heap, primary, secondary),
    }
}
