// The numbers of a heap shadow, read and written by the form: four bytes at the player, eight at the desk.
#![tactic(auto)]

ghost use Rattle.std.specs.Prelude.{◌≡◌, ◌+◌, ◌-◌, ◌^◌, ◌≤◌, ◌<◌, length};
ghost use Rattle.number.specs.Little.{le, byte_of, word};
ghost use Rattle.number.specs.Parts.{at, over};
ghost use Rattle.map.specs.FormMap.{number_size};

use map::Form;

// The number that a part of the shadow holds.
pub fn number(form: Form, part: &[u8]) -> u64
    requires { length part.now ≡ number_size form }
    ensures { result ≡ le part.now }
{
    match form {
        Form::Player => u64::from(number_words::number(part)),
        Form::Desk => number_words::eight_at(part, 0),
    }
}

// The number at a place of the shadow.
pub fn number_at(form: Form, heap: &[u8], p: usize) -> u64
    requires { p + number_size form ≤ length heap.now }
    ensures { result ≡ word (at heap.now) p (number_size form) }
{
    match form {
        Form::Player => u64::from(number_words::number_at(heap, p)),
        Form::Desk => number_words::eight_at(heap, p),
    }
}

// Writes a number at a place of the shadow; every other byte stays.
pub fn put_at(form: Form, heap: &mut [u8], p: usize, v: u64)
    requires { (p + number_size form ≤ length heap.old) × (v < 2 ^ 32) }
    ensures { heap.new ≡ over p (number_size form) (λ q. byte_of v (q - p)) heap.old }
{
    match form {
        Form::Player => number_words::put_at(heap, p, v as u32),
        Form::Desk => number_words::put_eight_at(heap, p, v),
    }
}
