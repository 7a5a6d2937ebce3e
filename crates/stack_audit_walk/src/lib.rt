// The steps of the audit's walk, byte by byte.
#![tactic(auto)]

ghost use Rattle.std.specs.Prelude.{◌≡◌, ◌+◌, ◌<◌, ◌≤◌, max, length};
ghost use Rattle.number.specs.Parts.{at};
ghost use Rattle.stack_audit_laws.specs.Turn as turn;

use map::Position;
use stack_audit_bytes::{code_at, low_bits, secondary_at, short_length};
use stack_audit_laws::Walk;

// The length that the first byte of a block tells, where there is room for it. 0 is no block, as in `Walk` and its laws: the number read may be 0
// itself, so an Option would ask for a test more.
pub fn told(primary: &[u8], secondary: &[u8], q: Position) -> u32
    requires { (q.0 < length primary.now) × (length primary.now ≡ length secondary.now) × (length primary.now ≤ 65536) }
    ensures { result ≡ turn.told (length primary.now) (at primary.now) (at secondary.now) q.0 }
{
    let Position(at) = q;
    let code = primary[at] >> 2;
    if code == 0 {
        return 0;
    }
    if code <= 36 {
        return short_length(code);
    }
    if at + 9 <= secondary.len() {
        return number_words::number_at(secondary, at);
    }
    0
}

// The length of the block that goes on at q or would begin there, or 0.
pub fn current(primary: &[u8], secondary: &[u8], q: Position, len: u32) -> u32
    requires { (q.0 < length primary.now) × (length primary.now ≡ length secondary.now) × (length primary.now ≤ 65536) }
    ensures { result ≡ turn.current (length primary.now) (at primary.now) (at secondary.now) q.0 len }
{
    if len != 0 {
        return len;
    }
    let l = told(primary, secondary, q);
    if q.0 + (l as usize) <= primary.len() {
        return l;
    }
    0
}

// Whether the block that has its byte i at q, or would begin there, is a literal: its first byte tells.
pub fn literal_at(primary: &[u8], q: Position, i: u32) -> bool
    requires { (q.0 < length primary.now) × (i ≤ q.0) }
    ensures { result ≡ turn.literal_at (at primary.now) q.0 i }
{
    let Position(at) = q;
    let first = primary[at - (i as usize)];
    first & 2 != 0
}

// Whether the bytes x and y are those of byte i of a block of length k, a literal or not, or zero where k is 0.
pub fn stands(x: u8, y: u8, k: u32, i: u32, literal: bool) -> bool
    requires { i < max k 1 }
    ensures { result ≡ turn.stands x y k i literal }
{
    if k == 0 {
        return (x == 0) & (y == 0);
    }
    (x == ((code_at(k, i) << 2) | low_bits(x, literal))) & (y == secondary_at(k, i))
}

// The walk past n bytes of a block of length k. A block counts where it ends.
pub fn past(w: Walk, k: u32, n: u32, written: u32) -> Walk
    requires { (w.i + n ≤ k) × (w.blocks < 65536) × (w.live + n ≤ 65536) × (w.written + written ≤ 65536) }
    ensures { result ≡ turn.past w k n written }
{
    let i = w.i + n;
    let live = w.live + n;
    let written = w.written + written;
    if k <= i {
        return Walk {
            len: 0,
            i: 0,
            blocks: w.blocks + 1,
            live,
            written,
        };
    }
    Walk {
        len: k,
        i,
        live,
        written,
        ..w
    }
}

// The walk past a byte of a block of length k, or of none where k is 0.
pub fn after(w: Walk, k: u32, written: u8) -> Walk
    requires { (w.i < max k 1) × (w.blocks < 65536) × (w.live < 65536) × (w.written < 65536) × (written < 2) }
    ensures { result ≡ turn.after w k written }
{
    if k == 0 {
        return w;
    }
    past(w, k, 1, u32::from(written))
}
