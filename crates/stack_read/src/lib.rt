// The reading of a position of the stack.
#![tactic(auto)]

ghost use Rattle.std.specs.Prelude.{◌≡◌, ℕ, ◌<◌, ◌≤◌, length, ◌≢◌};
ghost use Rattle.number.specs.Parts.{at};
ghost use Rattle.plain.specs.Answers.{reading_of};
ghost use Rattle.stack_layout.specs.Reading.{stack_reading, long_reading, code_reading, fitted};

use map::Position;
use plain::Reading;
use stack_table::{short_after, short_offset};

// What a code tells of a byte: its block's length, and its offset there.
#[derive(Clone, Copy)]
struct Spot {
    len: u32,
    i: u32,
}

// Damage, as a length that fits in no area, so that one test of the fit settles it too. As an `Option<Spot>`, tried, a caller of `read` had 122
// instructions in place of 117: length and offset are packed into one register beside the tag, and unpacked for the test.
fn damage() -> Spot
    ensures { (result.len ≡ 4294967295) × (result.i ≡ 0) }
{
    Spot {
        len: 0xFFFFFFFF,
        i: 0,
    }
}

// Position p is j places into a piece. That the eight secondary bytes lie in the area is decided before they are fetched: a piece that would
// begin below 0 begins, by the wrap, above every end.
fn told_long(secondary: &[u8], p: Position, j: u32) -> Spot
    requires { (p.0 < length secondary.now) × (length secondary.now ≤ 65536) × (j < 15) }
    ensures { (m : ℕ) → fitted (length secondary.now) p.0 result.len result.i m
        ≡ long_reading (length secondary.now) (at secondary.now) p.0 j m }
{
    let Position(q) = p;
    let t = std::num::wrapping_sub_u32(q as u32, j) as usize;
    if secondary.len() < t + 8 {
        return damage();
    }
    let len = number_words::number_at(secondary, t);
    let o = number_words::number_at(secondary, t + 4);
    if stack_piece::bad_piece(len, o, j) {
        return damage();
    }
    Spot { len, i: o + j }
}

// What a code tells of position p; of code 0 only where a low bit is set, which is damage.
fn told(secondary: &[u8], p: Position, code: u8) -> Spot
    requires { (p.0 < length secondary.now) × (length secondary.now ≤ 65536) }
    ensures { (m : ℕ) → (code ≡ 0 → m ≢ 0) → fitted (length secondary.now) p.0 result.len result.i m
        ≡ code_reading (length secondary.now) (at secondary.now) p.0 code m }
{
    if code < 48 {
        if (code == 0) | (36 < code) {
            return damage();
        }
        let i = short_offset(code);
        return Spot {
            len: i + short_after(code) + 1,
            i,
        };
    }
    if 62 < code {
        return damage();
    }
    told_long(secondary, p, u32::from(code) - 48)
}

// The reading of a position: the code is taken by shift, the two low bits by mask. Small enough for the compiler to take it into each caller,
// which then keeps it in registers: whether the block fits is asked once, for both kinds.
pub fn read(primary: &[u8], secondary: &[u8], p: Position) -> Reading
    requires { (p.0 < length primary.now) × (length primary.now ≡ length secondary.now) × (length primary.now ≤ 65536) }
    ensures { reading_of result ≡ stack_reading (length primary.now) (at primary.now) (at secondary.now) p.0 }
{
    let q = p.0;
    let byte = primary[q];
    if byte == 0 {
        return Reading::Nothing;
    }
    let Spot { len, i } = told(secondary, p, byte >> 2);
    stack_piece::fit(secondary.len(), p, len, i, byte & 3)
}
