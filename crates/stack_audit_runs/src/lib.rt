// Runs of bytes of one block that are looked at together: whole pieces, or its last bytes.
#![tactic(auto)]

ghost use Rattle.std.specs.Prelude.{◌≡◌, Some, None, false, cond, ◌+◌, ◌-◌, ◌%◌, ◌<◌, ◌≤◌, eqb, length};
ghost use Rattle.number.specs.Parts.{run_of};
ghost use Rattle.stack_audit_laws.specs.Runs.{Inside, run_at, stands_in, end_run, has_piece, ahead_run};

use map::Position;
use number_bits::odds;
use number_words::eight_at;
use stack_audit_bytes::first_byte;
use stack_audit_laws::Run;
use stack_audit_pieces::{holds, pieces};

// How many bytes a block has left, from its byte i on, if eight bytes, x in primary and y in secondary, begin with them: the whole of a
// short block, or what a long one has after the first eight bytes of its last piece.
fn last(x: u64, y: u64, len: u32, i: u32, literal: bool) -> Option<u32>
    requires { (i < len) × (i % 8 ≡ 0) × (has_piece len i ≡ false) }
    ensures { (result ≡ cond (eqb (run_of (stands_in x y len i literal) 0 (len - i)) (len - i)) (Some (len - i)) None) × (len - i ≤ 8) }
{
    let left = len - i;
    let first = if len <= 8 {
        first_byte(stack_table::codes_below(len) + 1, literal)
    } else {
        first_byte(56, literal)
    };
    if holds(x, y, left, first, 0) {
        Some(left)
    } else {
        None
    }
}

// The last bytes of a block, from its byte i on, where eight bytes of the shadows are left to look at.
fn ending(primary: &[u8], secondary: &[u8], q: Position, len: u32, i: u32, literal: bool) -> Run
    requires { Inside primary.now secondary.now q.0 × (q.0 + 8 ≤ length primary.now) × (i < len) × (i % 8 ≡ 0) × (has_piece len i ≡ false) }
    ensures { result ≡ run_at primary.now q.0 (end_run primary.now secondary.now q.0 len i literal) }
{
    let Position(at) = q;
    let x = eight_at(primary, at);
    match last(x, eight_at(secondary, at), len, i, literal) {
        Some(n) => Run {
            n: n as usize,
            written: odds(x, n),
        },
        None => Run { n: 0, written: 0 },
    }
}

// The bytes of a block from its byte i on that are seen to be its own: whole pieces, or its last bytes; an empty run where nothing is seen,
// as that of `pieces` may be, so an Option would ask for a test more. A block of one byte is left to the turn past one.
pub fn ahead(primary: &[u8], secondary: &[u8], q: Position, len: u32, i: u32, literal: bool) -> Run
    requires { Inside primary.now secondary.now q.0 × (i < len) }
    ensures { result ≡ run_at primary.now q.0 (ahead_run primary.now secondary.now q.0 len i literal) }
{
    if i % 8 == 0 {
        if (8 < len) & (8 <= len - i) {
            return pieces(primary, secondary, q, len, i, literal);
        }
        if 1 < len && q.0 + 8 <= primary.len() {
            return ending(primary, secondary, q, len, i, literal);
        }
    }
    Run { n: 0, written: 0 }
}
