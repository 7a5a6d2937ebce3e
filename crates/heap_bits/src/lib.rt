// Where the heap's written bits lie: one byte has those of eight positions from a multiple of 8 on, which are a segment of the player and half a
// segment of the desk.
#![tactic(auto)]

ghost use Rattle.std.specs.Prelude.{◌≡◌, ◌%◌};
ghost use Rattle.heap_bits.specs.Bytes.{LieAhead};

use map::Form;

// How far on from a position the byte of its written bits lies, and that of the position 8 on.
#[derive(Clone, Copy)]
pub struct Ahead {
    pub own: usize,
    pub next: usize,
}

// From a multiple of 8 on; from the position 16 on both lie as far again.
pub fn ahead_of(form: Form, at: usize) -> Ahead
    requires { at % 8 ≡ 0 }
    ensures { LieAhead form at result.own result.next }
{
    match form {
        Form::Player => Ahead { own: 4, next: 12 },
        Form::Desk if at % 16 == 0 => Ahead { own: 8, next: 9 },
        Form::Desk => Ahead { own: 1, next: 16 },
    }
}
