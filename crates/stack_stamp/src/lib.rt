// A stack block as it begins, stamped into its place: codes in the primary, length and offset of each piece in the secondary.
#![tactic(auto)]

ghost use Rattle.std.specs.Prelude.{◌≡◌, true, ◌+◌, ◌≤◌, ◌-◌, length};
ghost use Rattle.number.specs.Parts.{at, zeros, over};
ghost use Rattle.plain.specs.Block.{starts_written, starts_literal, begun};
ghost use Rattle.stack_layout.specs.Code.{low_bits, primary_of, secondary_of};
ghost use Rattle.stack_layout.specs.Ops.{StackShadows, stack_vacant, stack_stamp};

use map::Position;
use plain::Beginning;
use stack_table::{BITS_4, BITS_8, BLOCK_4, BLOCK_8, codes_below};

// The two low bits of each primary byte of a block as it begins.
fn first_bits(how: Beginning) -> u8
    ensures { (result ≡ low_bits (starts_literal how) (starts_written how)) × (result ≤ 3) }
{
    match how {
        Beginning::Unwritten => 0,
        Beginning::Written => 1,
        Beginning::Literal => 3,
    }
}

// The primary bytes of a long block, each with these low bits: the codes of each piece climb from 48.
// The pieces before the last have eight bytes, the last takes the remainder.
fn stamp_pieces(primary: &mut [u8], base: Position, len: u32, bits: u8)
    requires { (base.0 + len ≤ length primary.old) × (length primary.old ≤ 65536) × (9 ≤ len) × (bits ≤ 3) }
    ensures { primary.new ≡ over base.0 len (λ q. primary_of len (q - base.0) bits) primary.old }
{
    let Position(b) = base;
    let before = len / 8 - 1;
    for piece in 0..before {
        let q = b + 8 * (piece as usize);
        stack_climb::climb_at(primary, Position(q), 8, 192 + bits);
    }
    let o = 8 * before;
    let last = b + (o as usize);
    stack_climb::climb_at(primary, Position(last), (len - o) as usize, 192 + bits);
}

// The primary bytes of any block: the codes of a short one climb from its first. Those of the commonest lengths are one number, in which no
// byte carries into the next.
fn stamp_primary(primary: &mut [u8], base: Position, len: u32, bits: u8)
    requires { (base.0 + len ≤ length primary.old) × (length primary.old ≤ 65536) × (1 ≤ len) × (bits ≤ 3) }
    ensures { primary.new ≡ over base.0 len (λ q. primary_of len (q - base.0) bits) primary.old }
{
    let Position(b) = base;
    if len == 4 {
        let word = BLOCK_4 + BITS_4 * u32::from(bits);
        number_words::put_at(primary, b, word);
        return;
    }
    if len == 8 {
        let word = BLOCK_8 + BITS_8 * u64::from(bits);
        number_words::put_eight_at(primary, b, word);
        return;
    }
    if len > 8 {
        stamp_pieces(primary, base, len, bits);
        return;
    }
    let first = 4 * (codes_below(len) + 1);
    stack_climb::climb_at(primary, base, len as usize, first as u8 + bits);
}

// The secondary bytes, in a place where they are zero: each piece of a long block begins with the length and its own offset.
fn stamp_secondary(secondary: &mut [u8], base: Position, len: u32)
    requires { (base.0 + len ≤ length secondary.old) × (length secondary.old ≤ 65536) × (zeros (at secondary.old) base.0 len ≡ true) }
    ensures { secondary.new ≡ over base.0 len (λ q. secondary_of len (q - base.0)) secondary.old }
{
    if len <= 8 {
        return;
    }
    let Position(b) = base;
    for piece in 0..len / 8 {
        let o = 8 * piece;
        let q = b + (o as usize);
        number_words::put_at(secondary, q, len);
        number_words::put_at(secondary, q + 4, o);
    }
}

// Records a block as it begins, in a place that is vacant: secondary bytes that are to be zero stay as they are.
pub fn stamp(primary: &mut [u8], secondary: &mut [u8], base: Position, len: u32, how: Beginning)
    requires { (base.0 + len ≤ length primary.old) × (length primary.old ≡ length secondary.old) × (length primary.old ≤ 65536) × (1 ≤ len)
        × (stack_vacant (primary.old, secondary.old) base.0 len ≡ true) }
    ensures { ◌≡◌ {A = StackShadows} (primary.new, secondary.new)
        (stack_stamp (primary.old, secondary.old) (begun how base.0 len)) }
{
    stamp_primary(primary, base, len, first_bits(how));
    stamp_secondary(secondary, base, len);
}
