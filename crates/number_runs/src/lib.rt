// Runs of zeros in a slice, 32 bytes at a time.
#![tactic(auto)]

ghost use Rattle.std.specs.Prelude.{◌≡◌, ◌+◌, ◌≤◌, length};
ghost use Rattle.number.specs.Parts.{at, zeros};

use number_words::eight_at;

// Whether the 32 bytes at a place are zero: four loads and one test.
pub fn zero_32(s: &[u8], p: usize) -> bool
    requires { p + 32 ≤ length s.now }
    ensures { result ≡ zeros (at s.now) p 32 }
{
    (eight_at(s, p) | eight_at(s, p + 8) | eight_at(s, p + 16) | eight_at(s, p + 24)) == 0
}
