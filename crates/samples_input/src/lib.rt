// Standard input, line by line.
#![tactic(auto)]

ghost use Rattle.std.specs.Prelude.{◌≡◌, length};
ghost use Rattle.samples_input.specs.Input.{IsLine, last_line};

use std::io::{Read, Stdin};

#[derive(Clone, Copy)]
pub enum Line {
    // So many bytes of the buffer, before the line's end.
    Whole(usize),
    // The buffer is full, and what followed on the line is dropped.
    Long,
}

// None at the end, also where the input cannot be read.
fn next_byte(mut input: Stdin) -> Option<u8> {
    let mut one = [0u8; 1];
    match input.read(&mut one) {
        Ok(0) | Err(_) => None,
        Ok(_) => Some(one[0]),
    }
}

fn drop_rest(input: Stdin) {
    for _ in 0..1000000000u32 {
        match next_byte(input) {
            None | Some(b'\n') => return,
            Some(_) => {}
        }
    }
}

// The last line may lack its line end.
fn last(n: usize) -> Option<Line>
    ensures { result ≡ last_line n }
{
    if n == 0 { None } else { Some(Line::Whole(n)) }
}

fn read_into(input: Stdin, buffer: &mut [u8]) -> Option<Line>
    requires { length buffer.old ≡ 4096 }
    ensures { IsLine 4096 buffer.new result }
{
    for n in 0..buffer.len() {
        let Some(b) = next_byte(input) else {
            return last(n);
        };
        if b == b'\n' {
            return Some(Line::Whole(n));
        }
        buffer[n] = b;
    }
    drop_rest(input);
    Some(Line::Long)
}

// The next line, of at most 4,095 bytes; none at the end of the input.
pub fn read(input: Stdin, buffer: &mut [u8; 4096]) -> Option<Line>
    ensures { IsLine 4096 buffer.new result }
{
    read_into(input, buffer)
}
