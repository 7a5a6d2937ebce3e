// The place of a stack block, tested and emptied: its own bytes of both shadows.
#![tactic(auto)]

ghost use Rattle.std.specs.Prelude.{◌≡◌, ◌+◌, ◌≤◌, length};
ghost use Rattle.stack_layout.specs.Ops.{StackShadows, stack_vacant, stack_erase};

use map::Position;

// Whether each shadow byte of a place is zero; for the commonest lengths one test of both shadows.
pub fn vacant(primary: &[u8], secondary: &[u8], base: Position, len: u32) -> bool
    requires { (base.0 + len ≤ length primary.now) × (length primary.now ≡ length secondary.now) × (length primary.now ≤ 65536) }
    ensures { result ≡ stack_vacant (primary.now, secondary.now) base.0 len }
{
    let q = base.0;
    match len as usize {
        4 => number_words::number_at(primary, q) | number_words::number_at(secondary, q) == 0,
        8 => number_words::eight_at(primary, q) | number_words::eight_at(secondary, q) == 0,
        n => number_zeros::zero_at(primary, q, n) & number_zeros::zero_at(secondary, q, n),
    }
}

// Zeros in the shadow bytes of a place.
pub fn erase(primary: &mut [u8], secondary: &mut [u8], base: Position, len: u32)
    requires { (base.0 + len ≤ length primary.old) × (length primary.old ≡ length secondary.old) × (length primary.old ≤ 65536) }
    ensures { ◌≡◌ {A = StackShadows} (primary.new, secondary.new) (stack_erase (primary.old, secondary.old) base.0 len) }
{
    let q = base.0;
    let n = len as usize;
    number_zeros::fill_zero_at(primary, q, n);
    number_zeros::fill_zero_at(secondary, q, n);
}
