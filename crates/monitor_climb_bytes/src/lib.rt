// Free bytes of the stack passed at once by the search for the next block.
#![tactic(auto)]

ghost use Rattle.std.specs.Prelude.{◌≤◌, ◌<◌, length};
ghost use Rattle.number.specs.Parts.{at};
ghost use Rattle.monitor_read_laws.specs.Climbed.{FreeBytes};

use map::Position;

// Past a position, and the bytes after it that are 0, as far as 64 and then eight bytes at a time show it. Where a loop ends is its result,
// so that a `for` would have to carry it out.
pub fn past_bytes(primary: &[u8], p: Position) -> Position
    requires { (p.0 < length primary.now) × (length primary.now ≤ 65536) }
    ensures { FreeBytes (length primary.now) (at primary.now) p.0 result.0 }
{
    let mut at = p.0 + 1;
    while at + 64 <= primary.len() {
        if number_runs::zero_32(primary, at) & number_runs::zero_32(primary, at + 32) {
            at += 64;
        } else {
            break;
        }
    }
    while at + 8 <= primary.len() {
        let eight = number_words::eight_at(primary, at);
        if eight != 0 {
            return Position(at + (number_bits::zero_bytes(eight) as usize));
        }
        at += 8;
    }
    Position(at)
}
