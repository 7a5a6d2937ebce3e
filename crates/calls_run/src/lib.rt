// What goes from record to record, and what it is after one.
#![tactic(auto)]

ghost use Rattle.std.specs.Prelude.{◌≡◌, false, ◌-◌, ◌≤◌};
ghost use Rattle.calls_window.specs.Window.{Held};
ghost use Rattle.calls_output.specs.Pending.{Waits};
ghost use Rattle.calls_run.specs.Begun.{Begun};
ghost use Rattle.calls_run.specs.Told.{Told};

use calls_output::Pending;
use calls_window::Window;
use map::Map;
use monitor_base::Answer;
use std::io::Stdout;

// What goes from record to record, beside the shadows: the map, the two buffers' state, and whether the run goes on.
#[derive(Clone, Copy)]
pub struct Run {
    pub map: Map,
    pub window: Window,
    pub pending: Pending,
    pub on: bool,
}

// The run at its beginning: no map yet, nothing read, and nothing waits.
pub fn begun() -> Run
    ensures { Begun result }
{
    Run {
        map: Map {
            heap_start: 0,
            heap_size: 0,
            stack_start: 0,
            stack_size: 0,
        },
        window: Window {
            at: 0,
            end: 0,
            more: true,
        },
        pending: Pending {
            filled: 0,
            open: true,
        },
        on: true,
    }
}

// The run at its end.
pub fn ended(map: Map, window: Window, pending: Pending) -> Run
    ensures { (result.map ≡ map) × (result.window ≡ window) × (result.pending ≡ pending) × (result.on ≡ false) }
{
    Run {
        map,
        window,
        pending,
        on: false,
    }
}

// The run after a record of this kind and length that was served: under the map that holds then, its line waits,
// and the window stands past it.
pub fn told(
    output: Stdout,
    lines: &mut [u8; 65536],
    run: Run,
    window: Window,
    kind: u32,
    length: usize,
    under: Map,
    answer: Answer,
) -> Run
    requires { Held window 65536 × Waits run.pending 65536 × (length ≤ window.end - window.at) }
    ensures { Told run window kind length under answer result lines.old lines.new }
{
    let pending = run.pending;
    let added = calls_output::line(output, lines, pending, kind, answer);
    Run {
        map: under,
        window: calls_window::past(window, length),
        pending: added,
        on: added.open,
    }
}
