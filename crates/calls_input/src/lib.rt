// Standard input through a buffer: wherever the reads end, a record is whole in it.
#![tactic(auto)]

ghost use Rattle.std.specs.Prelude.{◌≡◌, true, ◌-◌, ◌≤◌, length, drop};
ghost use Rattle.std.proofs.Math.Seq.{paste};
ghost use Rattle.calls_window.specs.Window.{Held, Refilled};

use calls_window::Window;
use std::io::{Read, Stdin};

// The longest record.
const LONGEST: usize = 20;

// One read; 0 where the input has ended or cannot be read.
fn read_some(mut input: Stdin, room: &mut [u8]) -> usize
    ensures { result ≤ length room.old }
{
    match input.read(room) {
        Ok(got) => got,
        Err(_) => 0,
    }
}

// Moves what is left to the buffer's start.
fn settle(buffer: &mut [u8], from: usize, end: usize)
    requires { (from ≤ end) × (end ≤ length buffer.old) }
    ensures { buffer.new ≡ paste buffer.old 0 (drop from buffer.old) (end - from) }
{
    for i in 0..end - from {
        buffer[i] = buffer[from + i];
    }
}

// Reads on behind what is left, until a record is whole or the input ends. Each read brings a byte at least.
fn read_on(input: Stdin, buffer: &mut [u8], w: Window) -> Window
    requires { Held w (length buffer.old) × (w.more ≡ true) }
    ensures { Refilled w result (length buffer.old) buffer.old buffer.new }
{
    let from = w.at;
    let end = w.end;
    settle(buffer, from, end);
    let mut filled = end - from;
    let mut more = true;
    for _ in 0..LONGEST {
        if LONGEST <= filled {
            break;
        }
        let got = read_some(input, &mut buffer[filled..]);
        if got == 0 {
            more = false;
            break;
        }
        filled += got;
    }
    Window {
        at: 0,
        end: filled,
        more,
    }
}

// The window with a whole record in it, where the input has one.
pub fn refill(input: Stdin, buffer: &mut [u8; 65536], w: Window) -> Window
    requires { Held w 65536 }
    ensures { Refilled w result 65536 buffer.old buffer.new }
{
    if w.more {
        if w.end - w.at < LONGEST {
            return read_on(input, buffer, w);
        }
    }
    w
}
