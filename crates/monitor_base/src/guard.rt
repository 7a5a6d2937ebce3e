// What every call begins and ends with: the map and the lengths, and answers.
ghost use Rattle.std.specs.Prelude.{◌≡◌, ◌&&◌, cond, eqb};
ghost use Rattle.map.specs.Map.{good_map};
ghost use Rattle.map.specs.FormMap.{under};
ghost use Rattle.plain.specs.Call as plain;
ghost use Rattle.monitor_base.specs.Answers.{answer_of};
ghost use Rattle.monitor_base.specs.Refusals.{Decides, code_of, told_of};

use crate::{Answer, Refusal};
use map::{Form, Map};

// Whether the map keeps its rules, and each shadow has the length of its area.
pub fn checked(
    form: Form,
    map: Map,
    heap: usize,
    primary: usize,
    secondary: usize,
) -> Result<(), Refusal>
    ensures { Decides (cond (good_map (under form map))
        (cond (eqb heap map.heap_size && eqb primary map.stack_size && eqb secondary map.stack_size) 0 2) 1) result }
{
    if !map.good(form) {
        return Err(Refusal::BadMap);
    }
    let fit = (heap == map.heap_size as usize)
        & (primary == map.stack_size as usize)
        & (secondary == map.stack_size as usize);
    if fit { Ok(()) } else { Err(Refusal::BadLength) }
}

// A number alone, whatever it is: all fields are zero.
pub fn alone(number: u32) -> Answer
    ensures { answer_of result ≡ plain.refusal number }
{
    Answer {
        number,
        first: 0,
        second: 0,
        third: 0,
        fourth: 0,
    }
}

// A refusal.
pub fn refusal(refused: Refusal) -> Answer
    ensures { answer_of result ≡ plain.refusal (code_of refused) }
{
    alone(refused.number())
}

// Accepted, with nothing to tell.
pub fn accepted() -> Answer
    ensures { answer_of result ≡ plain.refusal 0 }
{
    alone(0)
}

// What a call answers that tells nothing but whether it was accepted.
pub fn settled(done: Result<(), Refusal>) -> Answer
    ensures { answer_of result ≡ plain.refusal (told_of done) }
{
    match done {
        Ok(()) => accepted(),
        Err(refused) => refusal(refused),
    }
}
