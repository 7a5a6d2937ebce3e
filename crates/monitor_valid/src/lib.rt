// Whether bytes lie in one block with another, and may be written: two readings in the areas that they lie in, and an answer.
#![tactic(auto)]

ghost use Rattle.std.specs.Prelude.{◌≡◌, Bool, true, ℕ, ◌<◌, length};
ghost use Rattle.map.specs.FormMap.{number_size, segment_size, under};
ghost use Rattle.number.specs.Parts.{at};
ghost use Rattle.map.specs.Map.{good_map};
ghost use Rattle.plain.specs.Areas.{map_rules};
ghost use Rattle.plain.specs.Call as plain;
ghost use Rattle.plain.specs.Lift.{reading_up};
ghost use Rattle.plain.specs.Ops.{read_any};
ghost use Rattle.plain.specs.Reading.{nothing};
ghost use Rattle.heap_layout.specs.Reading.{heap_reading};
ghost use Rattle.stack_layout.specs.Reading.{stack_reading};
ghost use Rattle.shadows.specs.Shadows.{lengths_fit, shadow_ops};
ghost use Rattle.monitor_base.specs.Answers.{answer_of, outcome};
ghost use Rattle.monitor_base.specs.Calls.{call};
ghost use Rattle.monitor_read_laws.specs.Asked.{valid_answer};

use map::{Address, Form, Located, Map, Position};
use monitor_base::{Answer, Refusal, guard};
use plain::Reading;

// What valid answers where the first of n bytes lies in the heap, which holds no literal: write plays no part.
fn valid_heap(
    form: Form,
    map: Map,
    heap: &[u8],
    primary: &[u8],
    secondary: &[u8],
    p: Position,
    n: u32,
    from: Address,
) -> Answer
    requires { (good_map (under form map) ≡ true) × (lengths_fit (under form map) (heap.now, (primary.now, secondary.now)) ≡ true) × (p.0 < length heap.now) }
    ensures { (write : Bool) → answer_of result ≡ valid_answer write n (reading_up map.heap_start (heap_reading (number_size form) (segment_size form) (length heap.now) (at heap.now) p.0))
        (read_any (map_rules (under form map)) (shadow_ops (under form map)) (heap.now, (primary.now, secondary.now)) from.0) }
{
    let first = heap_read::read(form, heap, p);
    match map.locate(from) {
        Located::Heap(q) => {
            monitor_yes_no::judged(first, n, heap_read::read(form, heap, q), false)
        }
        Located::Stack(q) => monitor_yes_no::apart(first, stack_read::read(primary, secondary, q)),
        Located::Outside => monitor_yes_no::apart(first, Reading::Nothing),
    }
}

// What valid answers where the first of n bytes lies in the stack.
fn valid_stack(
    form: Form,
    map: Map,
    heap: &[u8],
    primary: &[u8],
    secondary: &[u8],
    p: Position,
    n: u32,
    from: Address,
    write: bool,
) -> Answer
    requires { (good_map (under form map) ≡ true) × (lengths_fit (under form map) (heap.now, (primary.now, secondary.now)) ≡ true) × (p.0 < length primary.now) }
    ensures { answer_of result
        ≡ valid_answer write n (reading_up map.stack_start (stack_reading (length primary.now) (at primary.now) (at secondary.now) p.0))
        (read_any (map_rules (under form map)) (shadow_ops (under form map)) (heap.now, (primary.now, secondary.now)) from.0) }
{
    let first = stack_read::read(primary, secondary, p);
    match map.locate(from) {
        Located::Stack(q) => {
            monitor_yes_no::judged(first, n, stack_read::read(primary, secondary, q), write)
        }
        Located::Heap(q) => monitor_yes_no::apart(first, heap_read::read(form, heap, q)),
        Located::Outside => monitor_yes_no::apart(first, Reading::Nothing),
    }
}

// What valid answers where the first of n bytes lies in neither area: n and write play no part.
fn valid_outside(
    form: Form,
    map: Map,
    heap: &[u8],
    primary: &[u8],
    secondary: &[u8],
    from: Address,
) -> Answer
    requires { (good_map (under form map) ≡ true) × (lengths_fit (under form map) (heap.now, (primary.now, secondary.now)) ≡ true) }
    ensures { (write : Bool) (n : ℕ) → answer_of result ≡ valid_answer write n nothing
        (read_any (map_rules (under form map)) (shadow_ops (under form map)) (heap.now, (primary.now, secondary.now)) from.0) }
{
    match map.locate(from) {
        Located::Heap(q) => monitor_yes_no::apart(Reading::Nothing, heap_read::read(form, heap, q)),
        Located::Stack(q) => monitor_yes_no::apart(
            Reading::Nothing,
            stack_read::read(primary, secondary, q),
        ),
        Located::Outside => monitor_yes_no::yes_no(false),
    }
}

// Whether n bytes and the byte at from lie in one block, and may be written where that is asked: 1 or 0. Both readings count; where they are one
// it is taken once, and from need not be looked for.
pub fn valid(
    form: Form,
    map: Map,
    heap: &[u8],
    primary: &[u8],
    secondary: &[u8],
    a: Address,
    n: u32,
    from: Address,
    write: bool,
) -> Answer
    ensures { outcome result heap.now primary.now secondary.now
        ≡ call (under form map) (plain.valid write a.0 n from.0) (heap.now, (primary.now, secondary.now)) }
{
    if let Err(refused) = guard::checked(form, map, heap.len(), primary.len(), secondary.len()) {
        return guard::refusal(refused);
    }
    if n == 0 {
        return guard::refusal(Refusal::Empty);
    }
    if a.0 == from.0 {
        return monitor_valid_alone::alone(form, map, heap, primary, secondary, a, n, write);
    }
    match map.locate(a) {
        Located::Heap(p) => valid_heap(form, map, heap, primary, secondary, p, n, from),
        Located::Stack(p) => valid_stack(form, map, heap, primary, secondary, p, n, from, write),
        Located::Outside => valid_outside(form, map, heap, primary, secondary, from),
    }
}
