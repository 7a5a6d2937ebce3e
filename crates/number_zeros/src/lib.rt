// Parts of a slice that are zero, and filling them with zeros.
#![tactic(auto)]

ghost use Rattle.std.specs.Prelude.{◌≡◌, ◌+◌, ◌≤◌, length};
ghost use Rattle.number.specs.Parts.{at, zeros, over};

// Whether each byte of a slice is zero: one pass with no early way out, which runs at memory speed.
pub fn all_zero(s: &[u8]) -> bool
    ensures { result ≡ zeros (at s.now) 0 (length s.now) }
{
    let mut seen = 0;
    for x in s {
        seen |= *x;
    }
    seen == 0
}

// Whether the n bytes from a on are zero.
pub fn zero_at(s: &[u8], a: usize, n: usize) -> bool
    requires { a + n ≤ length s.now }
    ensures { result ≡ zeros (at s.now) a n }
{
    all_zero(&s[a..a + n])
}

// Zeros in a whole slice: one memset. `s.fill(0)` was tried: it stores the last byte apart from the others, 11 instructions more.
pub fn fill_zero(s: &mut [u8])
    ensures { s.new ≡ over 0 (length s.old) (λ q. 0) s.old }
{
    for x in s.iter_mut() {
        *x = 0;
    }
}

// Zeros in the n bytes from a on; every other byte stays. The commonest lengths are one store.
pub fn fill_zero_at(s: &mut [u8], a: usize, n: usize)
    requires { a + n ≤ length s.old }
    ensures { s.new ≡ over a n (λ q. 0) s.old }
{
    match n {
        4 => number_words::put_at(s, a, 0),
        8 => number_words::put_eight_at(s, a, 0),
        _ => fill_zero(&mut s[a..a + n]),
    }
}
