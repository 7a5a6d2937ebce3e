// Written bits of the stack, tested: bit 0 of each primary byte of a range.
#![tactic(auto)]

ghost use Rattle.std.specs.Prelude.{◌≡◌, List, [], ℕ, ◌+◌, ◌≤◌, length};
ghost use Rattle.plain.specs.Ops.{range_marked};
ghost use Rattle.stack_layout.specs.Ops.{stack_ops};

use map::Position;
use stack_table::{BITS_4, BITS_8};

// Whether each bit is set, byte by byte.
fn all_marked(part: &[u8]) -> bool
    ensures { result ≡ range_marked (stack_ops (length part.now)) (part.now, []) 0 (length part.now) }
{
    let mut seen: u8 = 1;
    for b in part {
        seen &= *b;
    }
    seen == 1
}

// Whether each bit is set. The commonest lengths have no loop.
fn part_marked(part: &[u8]) -> bool
    ensures { result ≡ range_marked (stack_ops (length part.now)) (part.now, []) 0 (length part.now) }
{
    if part.len() == 4 {
        return number_words::number_at(part, 0) & BITS_4 == BITS_4;
    }
    if part.len() == 8 {
        return number_words::eight_at(part, 0) & BITS_8 == BITS_8;
    }
    if part.len() == 1 {
        return part[0] & 1 == 1;
    }
    all_marked(part)
}

// Whether the written bit of each of n bytes is set; the secondary, whatever it is, has no part in that.
pub fn marked(primary: &[u8], p: Position, n: u32) -> bool
    requires { p.0 + n ≤ length primary.now }
    ensures { (S : List ℕ) → result ≡ range_marked (stack_ops (length primary.now)) (primary.now, S) p.0 n }
{
    let q = p.0;
    let e = q + (n as usize);
    part_marked(&primary[q..e])
}
