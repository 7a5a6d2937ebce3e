// Clears the shadows.
#![tactic(auto)]

ghost use Rattle.std.specs.Prelude.{◌≡◌};
ghost use Rattle.map.specs.FormMap.{under};
ghost use Rattle.plain.specs.Call as plain;
ghost use Rattle.monitor_base.specs.Answers.{outcome};
ghost use Rattle.monitor_base.specs.Calls.{call};

use map::{Form, Map};
use monitor_base::{Answer, guard};

// All shadows zero.
pub fn clear(
    form: Form,
    map: Map,
    heap: &mut [u8],
    primary: &mut [u8],
    secondary: &mut [u8],
) -> Answer
    ensures { outcome result heap.new primary.new secondary.new
        ≡ call (under form map) plain.clear (heap.old, (primary.old, secondary.old)) }
{
    if let Err(refused) = guard::checked(form, map, heap.len(), primary.len(), secondary.len()) {
        return guard::refusal(refused);
    }
    number_zeros::fill_zero(heap);
    number_zeros::fill_zero(primary);
    number_zeros::fill_zero(secondary);
    guard::accepted()
}
