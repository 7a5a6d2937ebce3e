// A request of the calls program, served on the map and the shadows that it keeps.
#![tactic(auto)]

ghost use Rattle.std.specs.Prelude.{◌≡◌, ◌≤◌, length};
ghost use Rattle.map.specs.FormMap.{player};
ghost use Rattle.monitor_base.specs.Answers.{call_of};
ghost use Rattle.monitor_base.specs.Calls as monitor_calls;
ghost use Rattle.calls_format.specs.Decoded.{requested};
ghost use Rattle.calls_format.specs.Running as running;
ghost use Rattle.calls_format.specs.Kept.{parts, left, kept, served};

use calls_format::{Request, Served};
use calls_plan::{plan_of, sizes_of};
use map::{Form, Map};
use monitor::{Answer, Call};
use monitor_base::guard::refusal;

// A call on the first bytes of the buffers, as many as the areas have.
fn call_on(
    call: Call,
    map: Map,
    heap: &mut [u8],
    primary: &mut [u8],
    secondary: &mut [u8],
) -> Answer
    ensures { left map result heap.new primary.new secondary.new
        ≡ monitor_calls.call (player map) (call_of call) (parts map heap.old primary.old secondary.old) }
{
    let sizes = sizes_of(map, heap.len(), primary.len(), secondary.len());
    let h = sizes.heap;
    let p = sizes.primary;
    let s = sizes.secondary;
    monitor::call_step(
        call,
        Form::Player,
        map,
        &mut heap[0..h],
        &mut primary[0..p],
        &mut secondary[0..s],
    )
}

// An accepted map clears; a refused one keeps the old one and the shadows.
fn serve_on(
    map: Map,
    heap: &mut [u8],
    primary: &mut [u8],
    secondary: &mut [u8],
    request: Request,
) -> Served
    requires { (32768 ≤ length heap.old) × (16384 ≤ length primary.old) × (16384 ≤ length secondary.old) }
    ensures { served result heap.new primary.new secondary.new
        ≡ running.serve (requested request) (kept map heap.old primary.old secondary.old) }
{
    match plan_of(map, request) {
        Ok(step) => Served {
            map: step.under,
            answer: call_on(step.call, step.under, heap, primary, secondary),
        },
        Err(refused) => Served {
            map,
            answer: refusal(refused),
        },
    }
}

// Serves a request: the shadows are the first bytes of the three buffers.
pub fn serve(
    map: Map,
    heap: &mut [u8; 32768],
    primary: &mut [u8; 16384],
    secondary: &mut [u8; 16384],
    request: Request,
) -> Served
    ensures { served result heap.new primary.new secondary.new
        ≡ running.serve (requested request) (kept map heap.old primary.old secondary.old) }
{
    serve_on(map, heap, primary, secondary, request)
}
