// What readings say of bytes.
#![tactic(auto)]

ghost use Rattle.std.specs.Prelude.{◌≡◌};
ghost use Rattle.plain.specs.Answers.{reading_of};
ghost use Rattle.plain.specs.ShadowCalls.{is_literal, same_block};
ghost use Rattle.monitor_base.specs.Answers.{answer_of};
ghost use Rattle.monitor_read_laws.specs.Asked.{valid_answer, apart_answer};
ghost use Rattle.plain.specs.Call as plain;

use monitor_base::{Answer, Refusal, guard};
use plain::Reading;

// Whether two readings in one area give the same block.
fn same_block(r: Reading, q: Reading) -> bool
    ensures { result ≡ same_block (reading_of r) (reading_of q) }
{
    match (r, q) {
        (Reading::Block(base, length, _, _), Reading::Block(other, len, _, _)) => {
            (base == other) & (length == len)
        }
        _ => false,
    }
}

// Whether it is of a literal.
fn literal(r: Reading) -> bool
    ensures { result ≡ is_literal (reading_of r) }
{
    match r {
        Reading::Damaged | Reading::Nothing => false,
        Reading::Block(_, _, _, bits) => bits & 2 != 0,
    }
}

// Accepted, with 1 or 0.
pub fn yes_no(t: bool) -> Answer
    ensures { answer_of result ≡ plain.yes_no t }
{
    Answer {
        number: 0,
        first: u32::from(t),
        second: 0,
        third: 0,
        fourth: 0,
    }
}

// What is answered where no block holds the bytes that are asked for: 0, unless a reading is damaged.
pub fn apart(first: Reading, other: Reading) -> Answer
    ensures { answer_of result ≡ apart_answer (reading_of first) (reading_of other) }
{
    if monitor_reading::damaged(first) | monitor_reading::damaged(other) {
        return guard::refusal(Refusal::Damaged);
    }
    yes_no(false)
}

// What valid answers to the reading of the first of n bytes and that of the byte they belong to, both in one area: where the bytes are to be
// written, the first must not be of a literal.
pub fn judged(first: Reading, n: u32, other: Reading, write: bool) -> Answer
    ensures { answer_of result ≡ valid_answer write n (reading_of first) (reading_of other) }
{
    if monitor_reading::in_one(first, n) & same_block(first, other) {
        return yes_no(!(write & literal(first)));
    }
    apart(first, other)
}
