// The call that tells of an address: one reading and an answer.
#![tactic(auto)]

ghost use Rattle.std.specs.Prelude.{◌≡◌, ◌-◌};
ghost use Rattle.map.specs.FormMap.{under};
ghost use Rattle.plain.specs.Answers.{reading_of};
ghost use Rattle.plain.specs.Lift.{reading_up};
ghost use Rattle.monitor_base.specs.Answers.{answer_of, outcome};
ghost use Rattle.monitor_base.specs.Calls.{call};
ghost use Rattle.monitor_read_laws.specs.Asked.{ask_reading, base_below};
ghost use Rattle.plain.specs.Call as plain;

use map::{Address, Form, Located, Map};
use monitor_base::{Answer, Refusal, guard};
use plain::Reading;

// What ask answers to a reading in the area that begins at start: of its two bits, the one for written.
fn told(r: Reading, start: Address) -> Answer
    requires { base_below r (4294967296 - start.0) }
    ensures { answer_of result ≡ ask_reading (reading_up start.0 (reading_of r)) }
{
    match r {
        Reading::Nothing => guard::refusal(Refusal::NoBlock),
        Reading::Damaged => guard::refusal(Refusal::Damaged),
        Reading::Block(base, length, offset, bits) => {
            Answer {
                number: 0,
                first: map::to_address(base, start).0,
                second: length,
                third: offset,
                fourth: u32::from(bits & 1),
            }
        }
    }
}

// Base, length, offset, and 1 where the byte is written or else 0.
pub fn ask(
    form: Form,
    map: Map,
    heap: &[u8],
    primary: &[u8],
    secondary: &[u8],
    a: Address,
) -> Answer
    ensures { outcome result heap.now primary.now secondary.now
        ≡ call (under form map) (plain.ask a.0) (heap.now, (primary.now, secondary.now)) }
{
    if let Err(refused) = guard::checked(form, map, heap.len(), primary.len(), secondary.len()) {
        return guard::refusal(refused);
    }
    match map.locate(a) {
        Located::Heap(p) => told(heap_read::read(form, heap, p), Address(map.heap_start)),
        Located::Stack(p) => told(
            stack_read::read(primary, secondary, p),
            Address(map.stack_start),
        ),
        Located::Outside => guard::refusal(Refusal::Outside),
    }
}
