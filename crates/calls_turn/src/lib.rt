// One turn of the plain calls program: a record is read, served, and its line told.
#![tactic(auto)]

ghost use Rattle.calls_file.specs.Turn.{Goes, Turned};
ghost use Rattle.calls_turn.specs.Point.{point_of};

use calls_run::{Run, ended, told};
use calls_window::unread;
use std::io::{Stdin, Stdout};

// One record, or the end of the input.
pub fn turn(
    input: Stdin,
    output: Stdout,
    heap: &mut [u8; 32768],
    primary: &mut [u8; 16384],
    secondary: &mut [u8; 16384],
    bytes: &mut [u8; 65536],
    lines: &mut [u8; 65536],
    run: Run,
) -> Run
    requires { Goes run }
    ensures { Turned
        (point_of run heap.old primary.old secondary.old bytes.old lines.old)
        (point_of result heap.new primary.new secondary.new bytes.new lines.new) }
{
    let map = run.map;
    let pending = run.pending;
    let window = calls_input::refill(input, bytes, run.window);
    if window.at == window.end {
        return ended(map, window, pending);
    }
    let Some(request) = calls_records::decode(unread(bytes, window)) else {
        return ended(
            map,
            window,
            calls_output::undecodable(output, lines, pending),
        );
    };
    let served = calls_serve::serve(map, heap, primary, secondary, request);
    let kind = calls_kinds::kind_of(request);
    let length = calls_kinds::length_of(request);
    told(
        output,
        lines,
        run,
        window,
        kind,
        length,
        served.map,
        served.answer,
    )
}
