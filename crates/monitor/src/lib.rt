// The calls of the block monitor, of player and desk: form and map by value, three lent shadows.
#![tactic(auto)]

ghost use Rattle.std.specs.Prelude.{◌≡◌};
ghost use Rattle.map.specs.FormMap.{under};
ghost use Rattle.monitor_base.specs.Answers.{outcome, call_of, any_call_of};
ghost use Rattle.monitor_base.specs.Calls as calls;
ghost use Rattle.types.specs.Shadows.{shadows};
ghost use Rattle.specification.specs.Call as specification;
ghost use Rattle.specification.specs.Call.{form_of};

use map::{Form, Map};
pub use monitor_ask::ask;
pub use monitor_audit::audit;
pub use monitor_base::{Answer, Call, PlainCall, Query, Update};
pub use monitor_clear::clear;
pub use monitor_free::free;
pub use monitor_initialised::initialised;
pub use monitor_next::next;
pub use monitor_place::place;
pub use monitor_record::begin;
pub use monitor_remove::remove;
pub use monitor_valid::valid;
pub use monitor_written::written;

// Any call that every form has.
pub fn call_step(
    call: Call,
    form: Form,
    map: Map,
    heap: &mut [u8],
    primary: &mut [u8],
    secondary: &mut [u8],
) -> Answer
    ensures { outcome result heap.new primary.new secondary.new
        ≡ calls.call (under form map) (call_of call) (heap.old, (primary.old, secondary.old)) }
{
    match call {
        Call::Query(query) => monitor_query::query_step(query, form, map, heap, primary, secondary),
        Call::Update(update) => monitor_update::update_step(
            update, form, map, heap, primary, secondary,
        ),
    }
}

// Any call.
pub fn step(
    call: PlainCall,
    form: Form,
    map: Map,
    heap: &mut [u8],
    primary: &mut [u8],
    secondary: &mut [u8],
) -> Answer
    ensures { outcome result heap.new primary.new secondary.new
        ≡ specification.call (form_of form) map (any_call_of call) (shadows heap.old primary.old secondary.old) }
{
    match call {
        PlainCall::Call(c) => call_step(c, form, map, heap, primary, secondary),
        PlainCall::Place(length, budget) => place(
            form, map, heap, primary, secondary, length, budget,
        ),
    }
}
