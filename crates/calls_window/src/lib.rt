// The window of the input's buffer: the bytes that are read and not yet taken, and what is past a record.
#![tactic(auto)]

ghost use Rattle.std.specs.Prelude.{◌≡◌, ◌-◌, ◌≤◌, length};
ghost use Rattle.calls_window.specs.Window.{Held, Passed, content};

// The bytes of the buffer that are read and not yet taken, and whether the input may have more.
#[derive(Clone, Copy)]
pub struct Window {
    pub at: usize,
    pub end: usize,
    pub more: bool,
}

fn part_of(buffer: &[u8], w: Window) -> &[u8]
    requires { Held w (length buffer.now) }
    ensures { result.now ≡ content w buffer.now }
{
    let from = w.at;
    let end = w.end;
    &buffer[from..end]
}

// The bytes in the window.
pub fn unread(buffer: &[u8; 65536], w: Window) -> &[u8]
    requires { Held w 65536 }
    ensures { result.now ≡ content w buffer.now }
{
    part_of(buffer, w)
}

// The window past a record.
pub fn past(w: Window, length: usize) -> Window
    requires { Held w 65536 × (length ≤ w.end - w.at) }
    ensures { Passed w result length }
{
    Window {
        at: w.at + length,
        end: w.end,
        more: w.more,
    }
}
