// Any call that writes.
#![tactic(auto)]

ghost use Rattle.std.specs.Prelude.{◌≡◌};
ghost use Rattle.map.specs.FormMap.{under};
ghost use Rattle.monitor_base.specs.Answers.{outcome, update_of};
ghost use Rattle.monitor_base.specs.Calls.{call};

use map::{Form, Map};
use monitor_base::{Answer, Update};
use monitor_clear::clear;
use monitor_free::free;
use monitor_record::begin;
use monitor_remove::remove;
use monitor_written::written;

pub fn update_step(
    update: Update,
    form: Form,
    map: Map,
    heap: &mut [u8],
    primary: &mut [u8],
    secondary: &mut [u8],
) -> Answer
    ensures { outcome result heap.new primary.new secondary.new
        ≡ call (under form map) (update_of update) (heap.old, (primary.old, secondary.old)) }
{
    match update {
        Update::Clear => clear(form, map, heap, primary, secondary),
        Update::Begin(how, base, length) => begin(
            form, map, heap, primary, secondary, base, length, how,
        ),
        Update::Free(base) => free(form, map, heap, primary, secondary, base),
        Update::Remove(base) => remove(form, map, heap, primary, secondary, base),
        Update::Written(a, n) => written(form, map, heap, primary, secondary, a, n),
    }
}
