// The whole pieces of a long block, up to 31 of them looked at together.
#![tactic(auto)]

ghost use Rattle.std.specs.Prelude.{◌≡◌, ◌+◌, ◌*◌, ◌-◌, ◌%◌, ◌<◌, ◌≤◌, length};
ghost use Rattle.number.specs.Parts.{at, run_of, odd_bytes};
ghost use Rattle.stack_audit_laws.specs.Runs.{Inside, first_byte, stands_at};

use map::Position;
use number_words::eight_at;
use stack_audit_laws::Run;

// The first eight primary bytes of a piece, in a literal or in another block where none of them is written.
fn piece_bytes(literal: bool) -> u64
    ensures { result ≡ 2024390091656922112 + 72340172838076673 * first_byte 48 literal }
{
    if literal {
        0xDFDBD7D3CFCBC7C3
    } else {
        0xDCD8D4D0CCC8C4C0
    }
}

// How many of the n bytes at q are written, if they are whole pieces of a long block from its byte i on; 249 where that is not told. One pass with
// no early way out, which runs at memory speed; modulo 255 the sum of the written bits is their number. An Option as the answer was tried, with a
// `while` and with a `for`: LLVM then leaves this loop scalar, and as it stands makes vectors of it.
fn stretch(
    primary: &[u8],
    secondary: &[u8],
    q: Position,
    n: usize,
    len: u32,
    i: u32,
    literal: bool,
) -> u32
    requires { Inside primary.now secondary.now q.0 × (q.0 + n ≤ length primary.now) × (n ≤ 248) × (n % 8 ≡ 0)
        × (8 < len) × (i + n ≤ len) × (i % 8 ≡ 0) }
    ensures { result ≤ 248 → (run_of (stands_at primary.now secondary.now q.0 len i literal) 0 n ≡ n)
        × (result ≡ odd_bytes (at primary.now) q.0 n) }
{
    let Position(p) = q;
    let bytes = piece_bytes(literal);
    let mut pair = (len as u64) + 4294967296 * (i as u64);
    let mut wrong: u64 = 0;
    let mut sum: u64 = 0;
    let mut m: usize = 0;
    while m < n {
        let x = eight_at(primary, p + m);
        let ones = x & 0x0101010101010101;
        wrong = wrong | (x ^ (bytes | ones)) | (eight_at(secondary, p + m) ^ pair);
        sum += ones;
        pair += 0x800000000;
        m += 8;
    }
    if wrong != 0 {
        return 249;
    }
    (sum % 255) as u32
}

// How many of the bytes that are left one stretch takes: 31 pieces at most, so that their written bits stay below 255.
fn taken(left: usize) -> usize
    requires { 8 ≤ left }
    ensures { (8 ≤ result) × (result ≤ left) × (result ≤ 248) × (result % 8 ≡ 0) }
{
    if left < 248 { left / 8 * 8 } else { 248 }
}

// The pieces of a long block from its byte i on, among the end bytes at q, as far as stretches of them are the block's own.
pub fn far(
    primary: &[u8],
    secondary: &[u8],
    q: Position,
    end: usize,
    len: u32,
    i: u32,
    literal: bool,
) -> Run
    requires { Inside primary.now secondary.now q.0 × (q.0 + end ≤ length primary.now) × (8 < len) × (i + end ≤ len) × (i % 8 ≡ 0) }
    ensures { (result.n % 8 ≡ 0) × (result.n ≤ end)
        × (run_of (stands_at primary.now secondary.now q.0 len i literal) 0 result.n ≡ result.n)
        × (result.written ≡ odd_bytes (at primary.now) q.0 result.n) }
{
    let Position(p) = q;
    let mut n: usize = 0;
    let mut written: u32 = 0;
    // a `while`, since its step varies and its end is the result
    while n + 8 <= end {
        let m = taken(end - n);
        let ones = stretch(
            primary,
            secondary,
            Position(p + n),
            m,
            len,
            i + (n as u32),
            literal,
        );
        if 248 < ones {
            break;
        }
        written += ones;
        n += m;
    }
    Run { n, written }
}
