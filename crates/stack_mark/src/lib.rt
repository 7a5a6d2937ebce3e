// Written bits of the stack, set: bit 0 of each primary byte of a range.
#![tactic(auto)]

ghost use Rattle.std.specs.Prelude.{◌≡◌, List, ℕ, ◌+◌, ◌≤◌, length};
ghost use Rattle.number.specs.Parts.{at, over};
ghost use Rattle.plain.specs.Ops.{mark_range};
ghost use Rattle.stack_layout.specs.Ops.{StackShadows, stack_ops, with_written};

use map::Position;
use stack_table::BITS_4;

// Sets the bits of the four bytes from k on, as one number: no byte carries into the next.
fn mark_four(part: &mut [u8], k: usize)
    requires { k + 4 ≤ length part.old }
    ensures { part.new ≡ over k 4 (λ q. with_written (at part.old q)) part.old }
{
    let word = number_words::number_at(part, k) | BITS_4;
    number_words::put_at(part, k, word);
}

// Sets each bit, byte by byte.
fn mark_all(part: &mut [u8])
    ensures { part.new ≡ over 0 (length part.old) (λ q. with_written (at part.old q)) part.old }
{
    for b in part.iter_mut() {
        *b |= 1;
    }
}

// Sets each bit, whatever else the byte holds. The commonest lengths have no loop.
fn mark_part(part: &mut [u8])
    ensures { part.new ≡ over 0 (length part.old) (λ q. with_written (at part.old q)) part.old }
{
    if part.len() == 4 {
        mark_four(part, 0);
        return;
    }
    if part.len() == 8 {
        mark_four(part, 0);
        mark_four(part, 4);
        return;
    }
    if part.len() == 1 {
        part[0] |= 1;
        return;
    }
    mark_all(part);
}

// Sets the written bits of n bytes; the secondary, whatever it is, has no part in that.
pub fn mark(primary: &mut [u8], p: Position, n: u32)
    requires { p.0 + n ≤ length primary.old }
    ensures { (S : List ℕ) → ◌≡◌ {A = StackShadows} (primary.new, S)
        (mark_range (stack_ops (length primary.old)) (primary.old, S) p.0 n) }
{
    let q = p.0;
    let e = q + (n as usize);
    mark_part(&mut primary[q..e]);
}
