// Zeros in both shadows, passed 32 bytes at a time and then eight.
#![tactic(auto)]

ghost use Rattle.std.specs.Prelude.{◌≡◌};
ghost use Rattle.stack_audit_laws.specs.Runs.{Inside, clear_to};

use map::Position;
use number_runs::zero_32;
use number_words::eight_at;

// The end of the zeros in both shadows from q on, as far as eight bytes at a time show it.
pub fn clear_to(primary: &[u8], secondary: &[u8], q: Position) -> Position
    requires { Inside primary.now secondary.now q.0 }
    ensures { result.0 ≡ clear_to primary.now secondary.now q.0 }
{
    // the end position is the result, so both loops count it themselves
    let mut p = q.0;
    while p + 32 <= primary.len() && zero_32(primary, p) & zero_32(secondary, p) {
        p += 32;
    }
    while p + 8 <= primary.len() {
        let both = eight_at(primary, p) | eight_at(secondary, p);
        if both != 0 {
            return Position(p + number_bits::zero_bytes(both) as usize);
        }
        p += 8;
    }
    Position(p)
}
