// Whether bytes of one block are written: a reading of the first, the written bits of all, and an answer.
#![tactic(auto)]

ghost use Rattle.std.specs.Prelude.{◌≡◌, ◌%◌, ◌≤◌, ◌<◌, length};
ghost use Rattle.map.specs.FormMap.{number_size, segment_size, under};
ghost use Rattle.number.specs.Parts.{at};
ghost use Rattle.plain.specs.Call as plain;
ghost use Rattle.plain.specs.Ops.{range_marked};
ghost use Rattle.heap_layout.specs.Ops.{heap_ops};
ghost use Rattle.heap_layout.specs.Reading.{heap_reading};
ghost use Rattle.stack_layout.specs.Ops.{stack_ops};
ghost use Rattle.stack_layout.specs.Reading.{stack_reading};
ghost use Rattle.monitor_base.specs.Answers.{answer_of, outcome};
ghost use Rattle.monitor_base.specs.Calls.{call};
ghost use Rattle.monitor_read_laws.specs.Asked.{initialised_answer};

use map::{Address, Form, Located, Map, Position};
use monitor_base::{Answer, Refusal, guard};
use plain::Reading;

// In the heap.
fn written_heap(form: Form, heap: &[u8], p: Position, n: u32) -> Answer
    requires { (p.0 < length heap.now) × (length heap.now % segment_size form ≡ 0) × (length heap.now ≤ 131072) }
    ensures { answer_of result ≡ initialised_answer n (heap_reading (number_size form) (segment_size form) (length heap.now) (at heap.now) p.0)
        (range_marked (heap_ops (number_size form) (segment_size form) (length heap.now)) heap.now p.0 n) }
{
    let first = heap_read::read(form, heap, p);
    if monitor_reading::in_one(first, n) {
        return monitor_yes_no::yes_no(heap_marked::marked(form, heap, p, n));
    }
    monitor_yes_no::apart(first, Reading::Nothing)
}

// In the stack, where a whole block of four or eight written bytes needs no reading.
fn written_stack(primary: &[u8], secondary: &[u8], p: Position, n: u32) -> Answer
    requires { (p.0 < length primary.now) × (length primary.now ≡ length secondary.now) × (length primary.now ≤ 65536) }
    ensures { answer_of result
        ≡ initialised_answer n (stack_reading (length primary.now) (at primary.now) (at secondary.now) p.0)
        (range_marked (stack_ops (length primary.now)) (primary.now, secondary.now) p.0 n) }
{
    if stack_whole::written(primary, p, n) {
        return monitor_yes_no::yes_no(true);
    }
    let first = stack_read::read(primary, secondary, p);
    if monitor_reading::in_one(first, n) {
        return monitor_yes_no::yes_no(stack_marked::marked(primary, p, n));
    }
    monitor_yes_no::apart(first, Reading::Nothing)
}

// Whether n bytes lie in one block and each is written: 1 or 0.
pub fn initialised(
    form: Form,
    map: Map,
    heap: &[u8],
    primary: &[u8],
    secondary: &[u8],
    a: Address,
    n: u32,
) -> Answer
    ensures { outcome result heap.now primary.now secondary.now
        ≡ call (under form map) (plain.initialised a.0 n) (heap.now, (primary.now, secondary.now)) }
{
    if let Err(refused) = guard::checked(form, map, heap.len(), primary.len(), secondary.len()) {
        return guard::refusal(refused);
    }
    if n == 0 {
        return guard::refusal(Refusal::Empty);
    }
    match map.locate(a) {
        Located::Heap(p) => written_heap(form, heap, p, n),
        Located::Stack(p) => written_stack(primary, secondary, p, n),
        Located::Outside => monitor_yes_no::yes_no(false),
    }
}
