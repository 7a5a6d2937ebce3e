// The audit of both areas.
#![tactic(auto)]

ghost use Rattle.std.specs.Prelude.{◌≡◌};
ghost use Rattle.map.specs.FormMap.{under};
ghost use Rattle.plain.specs.Call as plain;
ghost use Rattle.monitor_base.specs.Answers.{answer_of, outcome};
ghost use Rattle.monitor_read_laws.specs.Audited.{audits_answer, sums_fit};
ghost use Rattle.monitor_base.specs.Calls.{call};

use map::{Form, Map};
use monitor_base::{Answer, Refusal, guard};
use plain::Totals;

// The totals of two audits, the heap's and the stack's, in one answer.
fn joined(h: Option<Totals>, k: Option<Totals>) -> Answer
    requires { sums_fit h k }
    ensures { answer_of result ≡ audits_answer h k }
{
    match (h, k) {
        (Some(heap), Some(stack)) => Answer {
            number: 0,
            first: heap.blocks,
            second: stack.blocks,
            third: heap.live + stack.live,
            fourth: heap.written + stack.written,
        },
        _ => guard::refusal(Refusal::Damaged),
    }
}

// Heap blocks, stack blocks, live bytes, written bytes.
pub fn audit(form: Form, map: Map, heap: &[u8], primary: &[u8], secondary: &[u8]) -> Answer
    ensures { outcome result heap.now primary.now secondary.now
        ≡ call (under form map) plain.audit (heap.now, (primary.now, secondary.now)) }
{
    if let Err(refused) = guard::checked(form, map, heap.len(), primary.len(), secondary.len()) {
        return guard::refusal(refused);
    }
    joined(
        heap_audit::audit(form, heap),
        stack_audit::audit(primary, secondary),
    )
}
