// Records a block: the check, then the effect.
#![tactic(auto)]

ghost use Rattle.std.specs.Prelude.{◌≡◌};
ghost use Rattle.map.specs.FormMap.{under};
ghost use Rattle.shadows.specs.Shadows.{Shadows};
ghost use Rattle.monitor_base.specs.Answers.{outcome};
ghost use Rattle.monitor_base.specs.Calls.{call};
ghost use Rattle.monitor_base.specs.Refusals.{told_of};
ghost use Rattle.plain.specs.Call as plain;

use map::{Address, Form, Map};
use monitor_base::{Answer, Refusal, guard};
use monitor_record_check::check;
use monitor_stamp::stamp;
use plain::Beginning;

// Whether it was accepted, alone: an answer in memory would cost more than the check.
fn recorded(
    form: Form,
    map: Map,
    heap: &mut [u8],
    primary: &mut [u8],
    secondary: &mut [u8],
    base: Address,
    len: u32,
    how: Beginning,
) -> Result<(), Refusal>
    ensures { ◌≡◌ {A = Shadows × plain.Answer} ((heap.new, (primary.new, secondary.new)), plain.refusal (told_of result))
        (call (under form map) (plain.begin how base.0 len) (heap.old, (primary.old, secondary.old))) }
{
    let place = check(form, map, heap, primary, secondary, base, len, how)?;
    stamp(form, heap, primary, secondary, place, len, how);
    Ok(())
}

// The block joins: no byte written, every byte, or as a literal.
pub fn begin(
    form: Form,
    map: Map,
    heap: &mut [u8],
    primary: &mut [u8],
    secondary: &mut [u8],
    base: Address,
    len: u32,
    how: Beginning,
) -> Answer
    ensures { outcome result heap.new primary.new secondary.new
        ≡ call (under form map) (plain.begin how base.0 len) (heap.old, (primary.old, secondary.old)) }
{
    guard::settled(recorded(form, map, heap, primary, secondary, base, len, how))
}
