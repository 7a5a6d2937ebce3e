// Whole blocks of four and of eight bytes, the commonest, found by one comparison, before any reading.
#![tactic(auto)]

ghost use Rattle.std.specs.Prelude.{◌≡◌, ◌&&◌, ◌+◌, ◌<◌, ◌≤◌, leb, eqb, length};
ghost use Rattle.number.specs.Parts.{at};
ghost use Rattle.stack_laws.specs.Whole.{whole_written, whole_writable};

use map::Position;
use stack_table::{BITS_4, BITS_8, BLOCK_4, BLOCK_8};

// The primary bytes of a written block of four bytes as one number, and of eight.
const WRITTEN_4: u32 = BLOCK_4 + BITS_4;

const WRITTEN_8: u64 = BLOCK_8 + BITS_8;

// Whether n is k, and the shadow holds the k bytes from q on.
fn is_there(primary: &[u8], q: usize, n: u32, k: u32) -> bool
    requires { (q < length primary.now) × (length primary.now ≤ 65536) × (k ≤ 8) }
    ensures { result ≡ (eqb n k && leb (q + k) (length primary.now)) }
{
    (n == k) & (q + (k as usize) <= primary.len())
}

// Whether n is 4 or 8 and the n bytes from p on are a whole block, each written, and no literal, once the bits of a mask are set.
fn is_whole(primary: &[u8], p: Position, n: u32, mask_4: u32, mask_8: u64) -> bool
    requires { (p.0 < length primary.now) × (length primary.now ≤ 65536) }
    ensures as_it_is { mask_4 ≡ 0 → mask_8 ≡ 0 → result ≡ whole_written (length primary.now) (at primary.now) p.0 n }
    ensures filled { mask_4 ≡ BITS_4 → mask_8 ≡ BITS_8 → result ≡ whole_writable (length primary.now) (at primary.now) p.0 n }
{
    let Position(q) = p;
    if is_there(primary, q, n, 4) {
        return number_words::number_at(primary, q) | mask_4 == WRITTEN_4;
    }
    if is_there(primary, q, n, 8) {
        return number_words::eight_at(primary, q) | mask_8 == WRITTEN_8;
    }
    false
}

// Whether n is 4 or 8 and the n bytes from p on are a whole block, each written, and no literal.
pub fn written(primary: &[u8], p: Position, n: u32) -> bool
    requires { (p.0 < length primary.now) × (length primary.now ≤ 65536) }
    ensures { result ≡ whole_written (length primary.now) (at primary.now) p.0 n }
{
    is_whole(primary, p, n, 0, 0)
}

// The same, whatever is written.
pub fn writable(primary: &[u8], p: Position, n: u32) -> bool
    requires { (p.0 < length primary.now) × (length primary.now ≤ 65536) }
    ensures { result ≡ whole_writable (length primary.now) (at primary.now) p.0 n }
{
    is_whole(primary, p, n, BITS_4, BITS_8)
}
