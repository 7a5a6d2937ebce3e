// What a request asks of the monitor: a call under a map, on so many bytes of each buffer, or a refusal.
#![tactic(auto)]

ghost use Rattle.std.specs.Prelude.{◌≡◌, min};
ghost use Rattle.plain.specs.Call.{clear};
ghost use Rattle.calls_format.specs.Decoded.{requested};
ghost use Rattle.calls_plan.specs.Plan.{plan_of, planned};

use calls_format::Request;
use map::Map;
use monitor_base::{Call, Refusal, Update};

// A call of the program's form, and the map that it is made under.
#[derive(Clone, Copy)]
pub struct Step<C> {
    pub under: Map,
    pub call: C,
}

// An accepted map clears, under itself; a refused one leaves all.
pub fn plan_of(map: Map, request: Request) -> Result<Step<Call>, Refusal>
    ensures { plan_of result ≡ planned clear map (requested request) }
{
    match request {
        Request::Call(call) => Ok(Step { under: map, call }),
        Request::NewMap(new) => {
            calls_map::checked(new)?;
            let call = Call::Update(Update::Clear);
            Ok(Step { under: new, call })
        }
    }
}

// How many bytes of each buffer are shadow.
#[derive(Clone, Copy)]
pub struct Sizes {
    pub heap: usize,
    pub primary: usize,
    pub secondary: usize,
}

// As many bytes as each area asks for, where the buffer has so many.
pub fn sizes_of(map: Map, heap: usize, primary: usize, secondary: usize) -> Sizes
    ensures { (result.heap ≡ min map.heap_size heap) × (result.primary ≡ min map.stack_size primary)
        × (result.secondary ≡ min map.stack_size secondary) }
{
    let stack_size = map.stack_size as usize;
    Sizes {
        heap: heap.min(map.heap_size as usize),
        primary: primary.min(stack_size),
        secondary: secondary.min(stack_size),
    }
}
