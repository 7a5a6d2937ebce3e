// The reading of where an address lies, and what a reading says.
#![tactic(auto)]

ghost use Rattle.std.specs.Prelude.{◌≡◌, cond};
ghost use Rattle.map.specs.FormMap.{number_size, segment_size};
ghost use Rattle.plain.specs.Answers.{reading_of};
ghost use Rattle.plain.specs.ShadowCalls.{is_damaged, is_first, in_one, length_of};
ghost use Rattle.monitor_base.specs.Refusals.{code_of};
ghost use Rattle.monitor_read_laws.specs.Asked.{There, reading_at};

use map::{Form, Located};
use monitor_base::Refusal;
use plain::Reading;

// By positions: in the heap, in the stack, or nothing outside both.
pub fn reading(form: Form, heap: &[u8], primary: &[u8], secondary: &[u8], l: Located) -> Reading
    requires { There (segment_size form) l heap.now primary.now secondary.now }
    ensures { reading_of result ≡ reading_at (number_size form) (segment_size form) l heap.now primary.now secondary.now }
{
    match l {
        Located::Heap(p) => heap_read::read(form, heap, p),
        Located::Stack(p) => stack_read::read(primary, secondary, p),
        Located::Outside => Reading::Nothing,
    }
}

pub fn damaged(r: Reading) -> bool
    ensures { result ≡ is_damaged (reading_of r) }
{
    match r {
        Reading::Damaged => true,
        Reading::Nothing | Reading::Block(_, _, _, _) => false,
    }
}

// The refusal where it gives no block that is asked for.
pub fn missing(r: Reading) -> Refusal
    ensures { code_of result ≡ cond (is_damaged (reading_of r)) 8 7 }
{
    match r {
        Reading::Damaged => Refusal::Damaged,
        Reading::Nothing | Reading::Block(_, _, _, _) => Refusal::NoBlock,
    }
}

// Whether it is of a block's first byte.
pub fn first(r: Reading) -> bool
    ensures { result ≡ is_first (reading_of r) }
{
    match r {
        Reading::Damaged | Reading::Nothing => false,
        Reading::Block(_, _, offset, _) => offset == 0,
    }
}

// The length of its block; 0 where it gives none.
pub fn length_of(r: Reading) -> u32
    ensures { result ≡ length_of (reading_of r) }
{
    match r {
        Reading::Nothing | Reading::Damaged => 0,
        Reading::Block(_, length, _, _) => length,
    }
}

// Whether n bytes lie in one block, by the reading of the first. The sum is taken in 64 bits, where it cannot wrap.
pub fn in_one(r: Reading, n: u32) -> bool
    ensures { result ≡ in_one n (reading_of r) }
{
    match r {
        Reading::Damaged | Reading::Nothing => false,
        Reading::Block(_, length, offset, _) => offset as u64 + n as u64 <= length as u64,
    }
}
