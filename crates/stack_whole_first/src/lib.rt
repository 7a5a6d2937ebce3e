// The first byte of a block of four or of eight bytes, the commonest, told by its code, before any reading.
#![tactic(auto)]

ghost use Rattle.std.specs.Prelude.{◌≡◌, ◌≢◌, ◌<◌, ◌≤◌, length, MatchOption};
ghost use Rattle.number.specs.Parts.{at};
ghost use Rattle.stack_laws.specs.Whole.{whole_length};

use map::Position;

// The length of such a block where one begins at p, literal or not: the codes of the first bytes are 7 and 29.
pub fn length_at(primary: &[u8], p: Position) -> Option<u32>
    requires { (p.0 < length primary.now) × (length primary.now ≤ 65536) }
    ensures { let len = whole_length (length primary.now) (at primary.now) p.0 in
        MatchOption result (len ≡ 0) (λ n. (n ≡ len) × (n ≢ 0)) }
{
    let q = p.0;
    match primary[q] >> 2 {
        7 if q + 4 <= primary.len() => Some(4),
        29 if q + 8 <= primary.len() => Some(8),
        _ => None,
    }
}
