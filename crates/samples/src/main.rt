// Runs samples: writes each line of standard input again, with what the proved code answers as its right-hand side.
#![tactic(auto)]

use map::Form;
use samples_input::Line;
use samples_output::{malformed, write};
use std::io::Stdout;

// A sample of the desk, or a line that is no sample: the desk has no calls program.
fn answer_desk(output: Stdout, line: &[u8]) {
    if let Some(call) = samples_text::after_word(line, 0, b"on desk:") {
        if !samples_plain::calls::answer(output, Form::Desk, line, call) {
            malformed(output);
        }
        return;
    }
    malformed(output);
}

// A sample of the form with origins, or of the desk.
fn answer_origins(output: Stdout, line: &[u8]) {
    if let Some(call) = samples_text::after_word(line, 0, b"on origins:") {
        if !samples_origins::calls::answer(output, line, call) {
            malformed(output);
        }
        return;
    }
    if let Some(records) = samples_text::after_word(line, 0, b"run origins:") {
        samples_origins::runs::answer(output, line, records);
        return;
    }
    answer_desk(output, line);
}

// A sample is answered, a remark or an empty line is left alone, and any other line gets a question mark.
fn answer(output: Stdout, line: &[u8]) {
    write(output, line);
    if samples_text::remark(line) {
        return;
    }
    if let Some(call) = samples_text::after_word(line, 0, b"on:") {
        if !samples_plain::calls::answer(output, Form::Player, line, call) {
            malformed(output);
        }
        return;
    }
    if let Some(records) = samples_text::after_word(line, 0, b"run:") {
        samples_plain::runs::answer(output, line, records);
        return;
    }
    answer_origins(output, line);
}

fn answer_line(output: Stdout, buffer: &[u8; 4096], line: Line) {
    match line {
        Line::Whole(n) => {
            if let Some(text) = buffer.get(..n) {
                answer(output, text);
            }
        }
        Line::Long => {
            write(output, buffer);
            malformed(output);
        }
    }
    write(output, b"\n");
}

fn main(rt: HostRuntime) {
    let input = rt.stdin();
    let output = rt.stdout();
    let mut buffer = [0u8; 4096];
    for _ in 0..1000000000u32 {
        let Some(line) = samples_input::read(input, &mut buffer) else {
            return;
        };
        answer_line(output, &buffer, line);
    }
}
