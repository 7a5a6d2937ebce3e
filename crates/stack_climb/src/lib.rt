// Primary bytes whose codes climb by one, in a part of the shadow.
#![tactic(auto)]

ghost use Rattle.std.specs.Prelude.{◌≡◌, ◌+◌, ◌-◌, ◌*◌, ◌≤◌, length};
ghost use Rattle.number.specs.Parts.{over};

use map::Position;
use stack_table::BITS_8;

// Codes that climb by one, with one mark for all, in a whole part: each byte is 4 above the one before, so no division is needed.
fn climb(part: &mut [u8], first: u8)
    requires { first + 4 * length part.old ≤ 255 }
    ensures { part.new ≡ over 0 (length part.old) (λ i. first + 4 * i) part.old }
{
    let mut byte = first;
    for b in part.iter_mut() {
        *b = byte;
        byte += 4;
    }
}

// The same in eight bytes from p on, as one number: no byte carries into the next.
fn climb_eight(primary: &mut [u8], p: Position, first: u8)
    requires { (p.0 + 8 ≤ length primary.old) × (first + 28 ≤ 255) }
    ensures { primary.new ≡ over p.0 8 (λ x. first + 4 * (x - p.0)) primary.old }
{
    number_words::put_eight_at(primary, p.0, BITS_8 * u64::from(first) + 0x1c1814100c080400);
}

// The same in the n bytes from p on, as a part that is lent.
fn climb_part(primary: &mut [u8], p: Position, n: usize, first: u8)
    requires { (p.0 + n ≤ length primary.old) × (first + 4 * n ≤ 255) }
    ensures { primary.new ≡ over p.0 n (λ x. first + 4 * (x - p.0)) primary.old }
{
    let Position(q) = p;
    let e = q + n;
    climb(&mut primary[q..e], first);
}

// The same in the n bytes from p on; every other byte stays. A piece of eight is one store.
pub fn climb_at(primary: &mut [u8], p: Position, n: usize, first: u8)
    requires { (p.0 + n ≤ length primary.old) × (first + 4 * n ≤ 255) }
    ensures { primary.new ≡ over p.0 n (λ x. first + 4 * (x - p.0)) primary.old }
{
    if n == 8 {
        climb_eight(primary, p, first);
        return;
    }
    climb_part(primary, p, n, first);
}
