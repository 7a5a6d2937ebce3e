// Frees a block of the heap: the check, then the effect.
#![tactic(auto)]

ghost use Rattle.std.specs.Prelude.{◌≡◌};
ghost use Rattle.map.specs.FormMap.{under};
ghost use Rattle.monitor_base.specs.Answers.{outcome};
ghost use Rattle.monitor_base.specs.Calls.{call};
ghost use Rattle.plain.specs.Call as plain;

use map::{Address, Form, Map};
use monitor_base::Answer;
use monitor_base::guard::{accepted, checked, refusal};
use monitor_free_check::check;

// Zeroes the shadow of the block and of its header. Address 0, C's null pointer, is accepted and nothing changes; of the stack nothing may be freed.
pub fn free(
    form: Form,
    map: Map,
    heap: &mut [u8],
    primary: &[u8],
    secondary: &[u8],
    base: Address,
) -> Answer
    ensures { outcome result heap.new primary.now secondary.now
        ≡ call (under form map) (plain.free base.0) (heap.old, (primary.now, secondary.now)) }
{
    if let Err(refused) = checked(form, map, heap.len(), primary.len(), secondary.len()) {
        return refusal(refused);
    }
    match check(form, map, heap, primary, secondary, base) {
        Ok(Some(block)) => {
            heap_place::erase(form, heap, block.base, block.length);
            accepted()
        }
        Ok(None) => accepted(),
        Err(refused) => refusal(refused),
    }
}
