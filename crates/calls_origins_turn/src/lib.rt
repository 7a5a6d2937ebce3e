// One turn of the calls program with origins: a record is read, served, and its line told.
#![tactic(auto)]

ghost use Rattle.calls_file.specs.Turn.{Goes, Turned};
ghost use Rattle.calls_origins_turn.specs.Point.{point_of};

use calls_origins_kinds::{kind_of, length_of};
use calls_run::{Run, ended, told};
use calls_window::unread;
use std::io::{Stdin, Stdout};

// What goes from record to record, beside shadows and cells.
#[derive(Clone, Copy)]
pub struct OriginsRun {
    pub run: Run,
    pub counter: u64,
}

// One record, or the end of the input.
pub fn turn(
    input: Stdin,
    output: Stdout,
    heap: &mut [u8; 32768],
    primary: &mut [u8; 16384],
    secondary: &mut [u8; 16384],
    heap_cells: &mut [u8; 65536],
    stack_cells: &mut [u8; 32768],
    bytes: &mut [u8; 65536],
    lines: &mut [u8; 65536],
    run: Run,
    counter: u64,
) -> OriginsRun
    requires { Goes run }
    ensures { Turned
        (point_of run counter heap.old primary.old secondary.old
        heap_cells.old stack_cells.old bytes.old lines.old)
        (point_of result.run result.counter heap.new primary.new secondary.new
        heap_cells.new stack_cells.new bytes.new lines.new) }
{
    let map = run.map;
    let pending = run.pending;
    let window = calls_input::refill(input, bytes, run.window);
    if window.at == window.end {
        return OriginsRun {
            run: ended(map, window, pending),
            counter,
        };
    }
    let Some(request) = calls_origins_records::decode(unread(bytes, window)) else {
        return OriginsRun {
            run: ended(
                map,
                window,
                calls_output::undecodable(output, lines, pending),
            ),
            counter,
        };
    };
    let served = calls_origins_serve::serve(
        map,
        heap,
        primary,
        secondary,
        heap_cells,
        stack_cells,
        counter,
        request,
    );
    let kind = kind_of(request);
    let length = length_of(request);
    OriginsRun {
        run: told(
            output,
            lines,
            run,
            window,
            kind,
            length,
            served.map,
            served.answer,
        ),
        counter: served.counter,
    }
}
