// One call on a given state: `on origins: pri@0=28,32,36,40 stackcells@0=7,0,0,0,7 : live 8192 8195`.
ghost use Rattle.std.specs.Prelude.{◌≡◌, ◌≤◌, length, replicate};
ghost use Rattle.samples_state.specs.Figures.{Fit};
ghost use Rattle.samples_state.specs.State.{state, five, first, give_all, is_given};

use crate::named;
use map::Map;
use origins_base::{Counted, OriginsCall};
use samples_output::change;
use samples_state::figures::Figures;
use std::io::Stdout;

// The call on the first bytes of the buffers, under the map of all samples.
fn step_on(
    call: OriginsCall,
    heap: &mut [u8],
    primary: &mut [u8],
    secondary: &mut [u8],
    heap_cells: &mut [u8],
    stack_cells: &mut [u8],
    f: Figures,
) -> Counted
    requires { (f.heap ≤ length heap.old) × (f.primary ≤ length primary.old) × (f.secondary ≤ length secondary.old)
        × (f.heap_cells ≤ length heap_cells.old) × (f.stack_cells ≤ length stack_cells.old) }
{
    let map = Map {
        heap_start: 4096,
        heap_size: 64,
        stack_start: 8192,
        stack_size: 32,
    };
    let h = f.heap;
    let p = f.primary;
    let s = f.secondary;
    let x = f.heap_cells;
    let y = f.stack_cells;
    origins::step(
        call,
        map,
        &mut heap[0..h],
        &mut primary[0..p],
        &mut secondary[0..s],
        &mut heap_cells[0..x],
        &mut stack_cells[0..y],
        f.counter,
    )
}

fn step(
    call: OriginsCall,
    heap: &mut [u8; 136],
    primary: &mut [u8; 136],
    secondary: &mut [u8; 136],
    heap_cells: &mut [u8; 136],
    stack_cells: &mut [u8; 136],
    f: Figures,
) -> Counted
    requires { Fit f }
{
    step_on(call, heap, primary, secondary, heap_cells, stack_cells, f)
}

// The answer, or a question mark where the call is malformed; the counter after it.
fn answer_call(
    output: Stdout,
    line: &[u8],
    at: usize,
    heap: &mut [u8; 136],
    primary: &mut [u8; 136],
    secondary: &mut [u8; 136],
    heap_cells: &mut [u8; 136],
    stack_cells: &mut [u8; 136],
    f: Figures,
) -> u64
    requires { Fit f }
{
    let Some(asked) = named::call_at(line, at) else {
        samples_output::malformed(output);
        return f.counter;
    };
    let told = step(
        asked.call,
        heap,
        primary,
        secondary,
        heap_cells,
        stack_cells,
        f,
    );
    let answer = told.answer;
    samples_output::write_answer(output, asked.kind, answer);
    told.counter
}

// The answer, each shadow that the call changed, and the counter if it did; a question mark where the call is malformed.
// Nothing, and false, where the given state is.
pub fn answer(output: Stdout, line: &[u8], at: usize) -> bool
    ensures { result ≡ is_given (give_all 4096 line.now at
        (state first (five (replicate 136 0) (replicate 136 0) (replicate 136 0) (replicate 136 0) (replicate 136 0)))) }
{
    let mut heap = [0u8; 136];
    let mut primary = [0u8; 136];
    let mut secondary = [0u8; 136];
    let mut heap_cells = [0u8; 136];
    let mut stack_cells = [0u8; 136];
    let given = samples_state::give(
        line,
        at,
        &mut heap,
        &mut primary,
        &mut secondary,
        &mut heap_cells,
        &mut stack_cells,
    );
    let place = given.call;
    let figures = given.figures;
    let Some(colon) = place else {
        return false;
    };
    let heap_was = heap;
    let primary_was = primary;
    let secondary_was = secondary;
    let heap_cells_were = heap_cells;
    let stack_cells_were = stack_cells;
    let counter = answer_call(
        output,
        line,
        colon,
        &mut heap,
        &mut primary,
        &mut secondary,
        &mut heap_cells,
        &mut stack_cells,
        figures,
    );
    let mut told = change(output, b" heap@", &heap_was, &heap, false);
    told = change(output, b" pri@", &primary_was, &primary, told);
    told = change(output, b" sec@", &secondary_was, &secondary, told);
    told = change(output, b" heapcells@", &heap_cells_were, &heap_cells, told);
    told = change(
        output,
        b" stackcells@",
        &stack_cells_were,
        &stack_cells,
        told,
    );
    samples_output::counter_change(output, figures.counter, counter, told);
    true
}
