// Every turn of the plain calls program, from its first state on.
#![tactic(auto)]

ghost use Rattle.std.specs.Prelude.{◌≡◌, length};
ghost use Rattle.calls_file.specs.Ran.{RanAll};
ghost use Rattle.calls_turn.specs.Point.{point_of};

use calls_run::{Run, begun};
use calls_turn::turn;
use std::io::{Stdin, Stdout};

// All records of the input, in buffers that may hold anything, and then what waits is written out. The run as its last turn
// left it. No input has so many records as there may be turns.
pub fn all(
    input: Stdin,
    output: Stdout,
    heap: &mut [u8; 32768],
    primary: &mut [u8; 16384],
    secondary: &mut [u8; 16384],
    bytes: &mut [u8; 65536],
    lines: &mut [u8; 65536],
) -> Run
    requires { length bytes.old ≡ 65536 }
    ensures { RanAll
        (point_of result heap.new primary.new secondary.new bytes.new lines.new)
        18446744073709551615 }
{
    let mut run = begun();
    for _ in 0..18446744073709551615u64 {
        if !run.on {
            break;
        }
        run = turn(input, output, heap, primary, secondary, bytes, lines, run);
    }
    calls_output::flush(output, lines, run.pending);
    run
}
