// What the samples program writes. No contract can say which bytes `write` puts out.
#![tactic(auto)]

ghost use Rattle.std.specs.Prelude.{◌≡◌, ◌||◌, length};
ghost use Rattle.samples_bytes.specs.Changes.{differ};

use monitor_base::Answer;
use std::io::{Stdout, Write};

// A write that fails is ignored.
pub fn write(mut output: Stdout, text: &[u8]) {
    output.write_all(text).is_ok();
}

pub fn write_number(output: Stdout, v: u64) {
    print!(output; "{v}").is_ok();
}

// The right-hand side of a line that is no sample.
pub fn malformed(output: Stdout) {
    write(output, b" => ?");
}

// Each number after a space, a write for each piece: where one fails, those after it are still tried.
fn write_fields(output: Stdout, fields: &[u32]) {
    write(output, b" =>");
    for v in fields {
        write(output, b" ");
        write_number(output, u64::from(*v));
    }
}

// The number, then as many fields as calls of this kind have, on a refusal too.
pub fn write_answer(output: Stdout, kind: u32, r: Answer) {
    let Answer {
        number,
        first,
        second,
        third,
        fourth,
    } = r;
    match kind {
        6 | 7 | 13 | 15 => write_fields(output, &[number, first]),
        8 => write_fields(output, &[number, first, second]),
        5 | 9 => write_fields(output, &[number, first, second, third, fourth]),
        _ => write_fields(output, &[number]),
    }
}

// The same for place, which has no kind.
pub fn write_room(output: Stdout, r: Answer) {
    write_fields(output, &[r.number, r.first, r.second, r.third]);
}

// The bytes as numbers, with commas between.
fn write_bytes(output: Stdout, bytes: &[u8]) {
    for (i, byte) in bytes.iter().enumerate() {
        if 0 < i {
            write(output, b",");
        }
        write_number(output, u64::from(*byte));
    }
}

// The word before the first change that is told.
fn begin_changes(output: Stdout, told: bool) {
    if !told {
        write(output, b" then");
    }
}

// One shadow's bytes, from the first to the last that changed, and whether a change is told by now.
pub fn change(output: Stdout, name: &[u8], old: &[u8], new: &[u8], told: bool) -> bool
    requires { length old.now ≡ length new.now }
    ensures { result ≡ (differ old.now new.now || told) }
{
    let start = samples_bytes::changes::change_start(old, new);
    let end = samples_bytes::changes::change_end(old, new);
    let (Some(start), Some(end)) = (start, end) else {
        return told;
    };
    begin_changes(output, told);
    write(output, name);
    write_number(output, start as u64);
    write(output, b"=");
    write_bytes(output, &new[start..end]);
    true
}

// The counter, where it changed.
pub fn counter_change(output: Stdout, old: u64, new: u64, told: bool) {
    if old != new {
        begin_changes(output, told);
        write(output, b" counter=");
        write_number(output, new);
    }
}

// What stands before the line of record i of a run.
pub fn gap(output: Stdout, i: u32) {
    if 0 < i {
        write(output, b";");
    }
    write(output, b" ");
}

// A line of the calls program without its line end.
pub fn write_line(output: Stdout, kind: u32, r: Answer) {
    let mut text = [0u8; 64];
    let n = calls_lines::render(&mut text, kind, r);
    if let Some((_, line)) = text[..n].split_last() {
        write(output, line);
    }
}
