// Marks bytes as written: the check, then the effect.
#![tactic(auto)]

ghost use Rattle.std.specs.Prelude.{◌≡◌};
ghost use Rattle.map.specs.FormMap.{under};
ghost use Rattle.monitor_base.specs.Answers.{outcome};
ghost use Rattle.monitor_base.specs.Calls.{call};
ghost use Rattle.plain.specs.Call as plain;

use map::{Address, Form, Map};
use monitor_base::{Answer, guard};
use monitor_mark::mark;
use monitor_written_check::check;

// The n bytes from an address on become written; only their written bits change.
pub fn written(
    form: Form,
    map: Map,
    heap: &mut [u8],
    primary: &mut [u8],
    secondary: &mut [u8],
    a: Address,
    n: u32,
) -> Answer
    ensures { outcome result heap.new primary.new secondary.new
        ≡ call (under form map) (plain.written a.0 n) (heap.old, (primary.old, secondary.old)) }
{
    match check(form, map, heap, primary, secondary, a, n) {
        Ok(place) => {
            mark(form, heap, primary, place, n);
            guard::accepted()
        }
        Err(refused) => guard::refusal(refused),
    }
}
