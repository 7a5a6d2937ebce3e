// The lines that the calls program writes, as decimal text.
#![tactic(auto)]

ghost use Rattle.std.specs.Prelude.{◌≡◌, [], ◌∷◌, ◌++◌, ◌+◌, ◌≤◌, length, drop};
ghost use Rattle.monitor_base.specs.Answers.{answer_of};
ghost use Rattle.calls_format.specs.Lines as lines;
ghost use Rattle.calls_format.specs.Lines.{decimal, spaced};
ghost use Rattle.calls_format.specs.Writing.{Wrote, fields_told};

use monitor_base::Answer;

// A number's digits: those of its tenth, then the last.
fn put_decimal(line: &mut [u8], place: usize, v: u32) -> usize
    requires { place + length (decimal v) ≤ length line.old }
    ensures { Wrote (decimal v) place result line.old line.new }
{
    if v < 10 {
        line[place] = (48 + v) as u8;
        return place + 1;
    }
    let end = put_decimal(line, place, v / 10);
    line[end] = (48 + v % 10) as u8;
    end + 1
}

// A number after a space.
fn put_spaced(line: &mut [u8], place: usize, v: u32) -> usize
    requires { place + length (spaced (v ∷ [])) ≤ length line.old }
    ensures { Wrote (spaced (v ∷ [])) place result line.old line.new }
{
    line[place] = 32;
    put_decimal(line, place + 1, v)
}

// Two numbers, each after a space.
fn put_two(line: &mut [u8], place: usize, v: u32, w: u32) -> usize
    requires { place + length (spaced (v ∷ w ∷ [])) ≤ length line.old }
    ensures { Wrote (spaced (v ∷ w ∷ [])) place result line.old line.new }
{
    let end = put_spaced(line, place, v);
    put_spaced(line, end, w)
}

// The answer fields of an accepted call, as many as its kind has.
fn put_fields(line: &mut [u8], place: usize, kind: u32, r: Answer) -> usize
    requires { place + length (spaced (fields_told kind (answer_of r))) ≤ length line.old }
    ensures { Wrote (spaced (fields_told kind (answer_of r))) place result line.old line.new }
{
    if r.number != 0 {
        return place;
    }
    match kind {
        5 | 9 => {
            let end = put_two(line, place, r.first, r.second);
            put_two(line, end, r.third, r.fourth)
        }
        6 | 7 => put_spaced(line, place, r.first),
        8 => put_two(line, place, r.first, r.second),
        13 | 15 => put_spaced(line, place, r.first),
        _ => place,
    }
}

// Kind, number and fields: 58 bytes at most, whatever the kind.
fn put_line(line: &mut [u8], kind: u32, r: Answer) -> usize
    requires { 64 ≤ length line.old }
    ensures { Wrote (lines.line kind (answer_of r)) 0 result line.old line.new }
{
    let named = put_decimal(line, 0, kind);
    let told = put_spaced(line, named, r.number);
    let end = put_fields(line, told, kind, r);
    line[end] = 10;
    end + 1
}

// The line of a call, from the buffer's first byte on, and its length; every other byte stays.
pub fn render(line: &mut [u8; 64], kind: u32, r: Answer) -> usize
    ensures { (result ≡ length (lines.line kind (answer_of r)))
        × (line.new ≡ lines.line kind (answer_of r) ++ drop result line.old) }
{
    put_line(line, kind, r)
}
