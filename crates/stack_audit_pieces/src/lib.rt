// The whole pieces of a long block, in stretches, and eight bytes at a time where a stretch is not all its own.
#![tactic(auto)]

ghost use Rattle.std.specs.Prelude.{◌≡◌, ◌*◌, ◌/◌, ◌%◌, ◌<◌, ◌≤◌, min, eqb};
ghost use Rattle.number.specs.Parts.{run_of};
ghost use Rattle.stack_audit_laws.specs.Runs.{Inside, run_at, climbs, own_run};

use map::Position;
use number_bits::{low, odds};
use number_words::eight_at;
use stack_audit_bytes::{climbing, first_byte};
use stack_audit_far::far;
use stack_audit_laws::Run;

// Whether n bytes of primary in x climb by 4 from the first one expected, and n bytes of secondary in y are those of pair. The written bits
// of x are set in what is expected, which in a literal has them already.
pub fn holds(x: u64, y: u64, n: u32, first: u64, pair: u64) -> bool
    requires { (1 ≤ n) × (n ≤ 8) × (first ≤ 227) }
    ensures { result ≡ eqb (run_of (climbs x y first pair) 0 n) n }
{
    let bytes = climbing(first);
    (low(x, n) == low(bytes | (x & 0x0101010101010101), n)) & (low(y, n) == low(pair, n))
}

// The whole pieces of a long block, a literal or not, from its byte i on, as far as they are those of the block.
pub fn pieces(primary: &[u8], secondary: &[u8], q: Position, len: u32, i: u32, literal: bool) -> Run
    requires { Inside primary.now secondary.now q.0 × (8 < len) × (i ≤ len) × (i % 8 ≡ 0) }
    ensures { result ≡ run_at primary.now q.0 (own_run primary.now secondary.now q.0 len i literal / 8 * 8) }
{
    let Position(at) = q;
    let end = (primary.len() - at).min((len - i) as usize);
    let first = first_byte(48, literal);
    let Run { mut n, mut written } = far(primary, secondary, q, end, len, i, literal);
    // a `while`, since its end is the result
    while n + 8 <= end {
        let x = eight_at(primary, at + n);
        let o = u64::from(i) + n as u64;
        if !holds(
            x,
            eight_at(secondary, at + n),
            8,
            first,
            u64::from(len) + 4294967296 * o,
        ) {
            return Run { n, written };
        }
        written += odds(x, 8);
        n += 8;
    }
    Run { n, written }
}
