// What a request asks of the library with origins: a call under a map, on so many bytes of each buffer, or a refusal.
#![tactic(auto)]

ghost use Rattle.std.specs.Prelude.{◌≡◌, ◌*◌, min};
ghost use Rattle.plain.specs.Call.{clear};
ghost use Rattle.origins_list.specs.Call.{plain};
ghost use Rattle.calls_plan.specs.Plan as monitor;
ghost use Rattle.calls_plan.specs.Plan.{planned};
ghost use Rattle.calls_origins_format.specs.Decoded.{requested};
ghost use Rattle.calls_origins_plan.specs.Plan.{plan_of, lifted};

use calls_origins_format::Request;
use calls_plan::Step;
use map::Map;
use monitor_base::{Call, Refusal};
use origins_base::OriginsCall;

// What is planned for the plain library, planned for this one.
fn plan_like(plan: Result<Step<Call>, Refusal>) -> Result<Step<OriginsCall>, Refusal>
    ensures { plan_of result ≡ lifted (monitor.plan_of plan) }
{
    plan.map(|step| Step {
        under: step.under,
        call: OriginsCall::Plain(step.call),
    })
}

// An accepted map clears, under itself; a refused one leaves all.
pub fn plan_of(map: Map, request: Request) -> Result<Step<OriginsCall>, Refusal>
    ensures { plan_of result ≡ planned (plain clear) map (requested request) }
{
    match request {
        Request::Plain(asked) => plan_like(calls_plan::plan_of(map, asked)),
        Request::Pointer(pointer) => Ok(Step {
            under: map,
            call: OriginsCall::Pointer(pointer),
        }),
    }
}

// How many bytes of each buffer are cells.
#[derive(Clone, Copy)]
pub struct CellSizes {
    pub heap: usize,
    pub stack: usize,
}

// Twice as many as the area has.
pub fn cell_sizes(map: Map, heap: usize, stack: usize) -> CellSizes
    ensures { (result.heap ≡ min (2 * map.heap_size) heap) × (result.stack ≡ min (2 * map.stack_size) stack) }
{
    CellSizes {
        heap: heap.min(2 * (map.heap_size as usize)),
        stack: stack.min(2 * (map.stack_size as usize)),
    }
}
