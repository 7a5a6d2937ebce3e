// Removes a block of the stack: the check, then the effect.
#![tactic(auto)]

ghost use Rattle.std.specs.Prelude.{◌≡◌};
ghost use Rattle.map.specs.FormMap.{under};
ghost use Rattle.monitor_base.specs.Answers.{outcome};
ghost use Rattle.monitor_base.specs.Calls.{call};
ghost use Rattle.plain.specs.Call as plain;

use map::{Address, Form, Map};
use monitor_base::Answer;
use monitor_base::guard::{accepted, checked, refusal};
use monitor_remove_check::check;

// Zeroes both shadows of the block, a literal's too.
pub fn remove(
    form: Form,
    map: Map,
    heap: &[u8],
    primary: &mut [u8],
    secondary: &mut [u8],
    base: Address,
) -> Answer
    ensures { outcome result heap.now primary.new secondary.new
        ≡ call (under form map) (plain.remove base.0) (heap.now, (primary.old, secondary.old)) }
{
    if let Err(refused) = checked(form, map, heap.len(), primary.len(), secondary.len()) {
        return refusal(refused);
    }
    match check(form, map, heap, primary, secondary, base) {
        Ok(block) => {
            stack_place::erase(primary, secondary, block.base, block.length);
            accepted()
        }
        Err(refused) => refusal(refused),
    }
}
