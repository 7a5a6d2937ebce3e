// A request of the calls program with origins, served on the map, the shadows, the cells and the counter that it keeps.
#![tactic(auto)]

ghost use Rattle.std.specs.Prelude.{◌≡◌, ◌≤◌, length};
ghost use Rattle.origins_base.specs.Answers.{call_of};
ghost use Rattle.origins_base.specs.Calls as form;
ghost use Rattle.calls_origins_format.specs.Decoded.{requested};
ghost use Rattle.calls_origins_format.specs.Running as running;
ghost use Rattle.calls_origins_format.specs.Kept.{parts, left, kept, served};

use calls_origins_format::{Request, Served};
use calls_origins_plan::{cell_sizes, plan_of};
use calls_plan::sizes_of;
use map::Map;
use monitor_base::guard::refusal;
use origins_base::{Counted, OriginsCall};

// A call on the first bytes of the buffers, as many as the areas ask for.
fn call_on(
    call: OriginsCall,
    map: Map,
    heap: &mut [u8],
    primary: &mut [u8],
    secondary: &mut [u8],
    heap_cells: &mut [u8],
    stack_cells: &mut [u8],
    counter: u64,
) -> Counted
    ensures { left map result heap.new primary.new secondary.new heap_cells.new stack_cells.new
        ≡ form.call map (call_of call) (parts map heap.old primary.old secondary.old
        heap_cells.old stack_cells.old counter) }
{
    let sizes = sizes_of(map, heap.len(), primary.len(), secondary.len());
    let cells = cell_sizes(map, heap_cells.len(), stack_cells.len());
    let h = sizes.heap;
    let p = sizes.primary;
    let s = sizes.secondary;
    let x = cells.heap;
    let y = cells.stack;
    origins::step(
        call,
        map,
        &mut heap[0..h],
        &mut primary[0..p],
        &mut secondary[0..s],
        &mut heap_cells[0..x],
        &mut stack_cells[0..y],
        counter,
    )
}

// An accepted map clears, and leaves the counter; a refused one keeps the old one and all else.
fn serve_on(
    map: Map,
    heap: &mut [u8],
    primary: &mut [u8],
    secondary: &mut [u8],
    heap_cells: &mut [u8],
    stack_cells: &mut [u8],
    counter: u64,
    request: Request,
) -> Served
    requires { (32768 ≤ length heap.old) × (16384 ≤ length primary.old) × (16384 ≤ length secondary.old)
        × (65536 ≤ length heap_cells.old) × (32768 ≤ length stack_cells.old) }
    ensures { served result heap.new primary.new secondary.new heap_cells.new stack_cells.new
        ≡ running.serve (requested request) (kept map heap.old primary.old secondary.old
        heap_cells.old stack_cells.old counter) }
{
    match plan_of(map, request) {
        Ok(step) => {
            let told = call_on(
                step.call,
                step.under,
                heap,
                primary,
                secondary,
                heap_cells,
                stack_cells,
                counter,
            );
            Served {
                map: step.under,
                answer: told.answer,
                counter: told.counter,
            }
        }
        Err(refused) => Served {
            map,
            answer: refusal(refused),
            counter,
        },
    }
}

// Serves a request: shadows and cells are the first bytes of the five buffers.
pub fn serve(
    map: Map,
    heap: &mut [u8; 32768],
    primary: &mut [u8; 16384],
    secondary: &mut [u8; 16384],
    heap_cells: &mut [u8; 65536],
    stack_cells: &mut [u8; 32768],
    counter: u64,
    request: Request,
) -> Served
    ensures { served result heap.new primary.new secondary.new heap_cells.new stack_cells.new
        ≡ running.serve (requested request) (kept map heap.old primary.old secondary.old
        heap_cells.old stack_cells.old counter) }
{
    serve_on(
        map,
        heap,
        primary,
        secondary,
        heap_cells,
        stack_cells,
        counter,
        request,
    )
}
