// Every turn of the calls program with origins, from its first state on.
#![tactic(auto)]

ghost use Rattle.std.specs.Prelude.{◌≡◌, length};
ghost use Rattle.calls_file.specs.Ran.{RanAll};
ghost use Rattle.calls_origins_turn.specs.Point.{point_of};

use calls_origins_turn::{OriginsRun, turn};
use calls_run::begun;
use std::io::{Stdin, Stdout};

// All records of the input, in buffers that may hold anything, and then what waits is written out. The run and the counter as
// the last turn left them. No input has so many records as there may be turns.
pub fn all(
    input: Stdin,
    output: Stdout,
    heap: &mut [u8; 32768],
    primary: &mut [u8; 16384],
    secondary: &mut [u8; 16384],
    heap_cells: &mut [u8; 65536],
    stack_cells: &mut [u8; 32768],
    bytes: &mut [u8; 65536],
    lines: &mut [u8; 65536],
) -> OriginsRun
    requires { length bytes.old ≡ 65536 }
    ensures { RanAll
        (point_of result.run result.counter heap.new primary.new secondary.new
        heap_cells.new stack_cells.new bytes.new lines.new)
        18446744073709551615 }
{
    let mut run = begun();
    let mut counter = 1u64;
    for _ in 0..18446744073709551615u64 {
        if !run.on {
            break;
        }
        let next = turn(
            input,
            output,
            heap,
            primary,
            secondary,
            heap_cells,
            stack_cells,
            bytes,
            lines,
            run,
            counter,
        );
        run = next.run;
        counter = next.counter;
    }
    calls_output::flush(output, lines, run.pending);
    OriginsRun { run, counter }
}
