// Standard output through a buffer. No contract can say which bytes `write` puts out.
#![tactic(auto)]

ghost use Rattle.std.specs.Prelude.{◌≤◌, length, take};
ghost use Rattle.monitor_base.specs.Answers.{answer_of};
ghost use Rattle.calls_format.specs.Lines as lines;
ghost use Rattle.calls_format.specs.Program as program;
ghost use Rattle.calls_output.specs.Pending.{Waits, Flushed, Readied, Added};

use monitor_base::Answer;
use std::io::{Stdout, Write};

// How many bytes of the buffer wait to be written, and whether the output still takes them.
#[derive(Clone, Copy)]
pub struct Pending {
    pub filled: usize,
    pub open: bool,
}

// Writes what waits, where the output still takes it.
fn write_out(mut output: Stdout, buffer: &[u8], p: Pending) -> Pending
    requires { Waits p (length buffer.now) }
    ensures { Flushed p result }
{
    let filled = p.filled;
    if p.open {
        return Pending {
            filled: 0,
            open: output.write_all(&buffer[0..filled]).is_ok(),
        };
    }
    Pending {
        filled: 0,
        open: false,
    }
}

// Writes what waits; then nothing waits.
pub fn flush(output: Stdout, buffer: &[u8; 65536], p: Pending) -> Pending
    requires { Waits p 65536 }
    ensures { Flushed p result }
{
    write_out(output, buffer, p)
}

// What waits, with room for a line behind it.
fn with_room(output: Stdout, buffer: &[u8], p: Pending) -> Pending
    requires { Waits p (length buffer.now) × (64 ≤ length buffer.now) }
    ensures { Readied p result (length buffer.now) }
{
    if p.filled + 64 <= buffer.len() {
        return p;
    }
    write_out(output, buffer, p)
}

// The first n bytes of a text behind what waits.
fn append(output: Stdout, buffer: &mut [u8], p: Pending, text: &[u8], n: usize) -> Pending
    requires { Waits p (length buffer.old) × (64 ≤ length buffer.old) × (n ≤ 64) × (n ≤ length text.now) }
    ensures { Added p result (take n text.now) (length buffer.old) buffer.old buffer.new }
{
    let q = with_room(output, buffer, p);
    let start = q.filled;
    for i in 0..n {
        buffer[start + i] = text[i];
    }
    let filled = start + n;
    Pending {
        filled,
        open: q.open,
    }
}

// The line of a call.
pub fn line(
    output: Stdout,
    buffer: &mut [u8; 65536],
    p: Pending,
    kind: u32,
    answer: Answer,
) -> Pending
    requires { Waits p 65536 }
    ensures { Added p result (lines.line kind (answer_of answer)) 65536 buffer.old buffer.new }
{
    let mut text = [0u8; 64];
    let n = calls_lines::render(&mut text, kind, answer);
    append(output, buffer, p, &text, n)
}

// The line of an undecodable record.
pub fn undecodable(output: Stdout, buffer: &mut [u8; 65536], p: Pending) -> Pending
    requires { Waits p 65536 }
    ensures { Added p result program.undecodable 65536 buffer.old buffer.new }
{
    let mut text = [0u8; 64];
    text[0] = 57;
    text[1] = 10;
    append(output, buffer, p, &text, 2)
}
