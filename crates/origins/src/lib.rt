// The calls of the block monitor with origins, on a map by value, three lent shadows, the cells of both areas, and a counter by value.
#![tactic(auto)]

ghost use Rattle.std.specs.Prelude.{◌≡◌};
ghost use Rattle.monitor_base.specs.Answers as plain_form;
ghost use Rattle.origins_list.specs.Call as form;
ghost use Rattle.origins_base.specs.Answers.{lent, outcome, call_of};
ghost use Rattle.origins_base.specs.Calls as calls;
ghost use Rattle.specification_origins.specs.Origins as specification;

use map::Map;
pub use monitor_base::{Answer, Call, Query, Update};
pub use origins_ask::ask;
pub use origins_base::{Counted, OriginsCall, Pointer};
pub use origins_clear::clear;
pub use origins_copy::copy;
pub use origins_free::free;
pub use origins_live::live;
pub use origins_point::point;
pub use origins_questions::{audit, initialised, next, valid};
pub use origins_record::begin;
pub use origins_remove::remove;
pub use origins_written::written;

// Any call of the plain form.
fn plain_step(
    call: Call,
    map: Map,
    heap: &mut [u8],
    primary: &mut [u8],
    secondary: &mut [u8],
    heap_cells: &mut [u8],
    stack_cells: &mut [u8],
    counter: u64,
) -> Counted
    ensures { outcome result heap.new primary.new secondary.new heap_cells.new stack_cells.new
        ≡ calls.call map (form.plain (plain_form.call_of call))
        (lent heap.old primary.old secondary.old heap_cells.old stack_cells.old counter) }
{
    match call {
        Call::Query(query) => {
            let answer = origins_query::query_step(
                query,
                map,
                heap,
                primary,
                secondary,
                heap_cells,
                stack_cells,
            );
            Counted { answer, counter }
        }
        Call::Update(update) => origins_update::update_step(
            update,
            map,
            heap,
            primary,
            secondary,
            heap_cells,
            stack_cells,
            counter,
        ),
    }
}

// Any call.
pub fn step(
    call: OriginsCall,
    map: Map,
    heap: &mut [u8],
    primary: &mut [u8],
    secondary: &mut [u8],
    heap_cells: &mut [u8],
    stack_cells: &mut [u8],
    counter: u64,
) -> Counted
    ensures { outcome result heap.new primary.new secondary.new heap_cells.new stack_cells.new
        ≡ specification.call map (call_of call)
        (lent heap.old primary.old secondary.old heap_cells.old stack_cells.old counter) }
{
    match call {
        OriginsCall::Plain(plain) => plain_step(
            plain,
            map,
            heap,
            primary,
            secondary,
            heap_cells,
            stack_cells,
            counter,
        ),
        OriginsCall::Pointer(pointer) => {
            let answer = origins_pointers::pointer_step(
                pointer,
                map,
                heap,
                primary,
                secondary,
                heap_cells,
                stack_cells,
            );
            Counted { answer, counter }
        }
    }
}
