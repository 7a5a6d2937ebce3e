// The check of a new map.
#![tactic(auto)]

ghost use Rattle.monitor_base.specs.Refusals.{Decides};
ghost use Rattle.calls_format.specs.Running.{map_number};

use map::{Form, Map};
use monitor_base::Refusal;

// Whether the map keeps its rules, and the program has shadows of its sizes.
pub fn checked(m: Map) -> Result<(), Refusal>
    ensures { Decides (map_number m) result }
{
    if !m.good(Form::Player) {
        return Err(Refusal::BadMap);
    }
    let above = (32768 < m.heap_size) | (16384 < m.stack_size);
    if above {
        Err(Refusal::TooLarge)
    } else {
        Ok(())
    }
}
