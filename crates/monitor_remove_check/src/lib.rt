// The check of a remove, after that of map and lengths: it only reads.
#![tactic(auto)]

ghost use Rattle.std.specs.Prelude.{◌≡◌, true};
ghost use Rattle.map.specs.FormMap.{under};
ghost use Rattle.map.specs.Map.{good_map};
ghost use Rattle.shadows.specs.Shadows.{lengths_fit};
ghost use Rattle.plain.specs.Call as plain;
ghost use Rattle.monitor_base.specs.Calls.{call};
ghost use Rattle.monitor_write_laws.specs.Checks.{removed_by, Removable};

use map::{Address, Form, Located, Map};
use monitor_base::{Block, Refusal};
use monitor_ending::ending;

// Only the first byte of a stack block is accepted.
pub fn check(
    form: Form,
    map: Map,
    heap: &[u8],
    primary: &[u8],
    secondary: &[u8],
    base: Address,
) -> Result<Block, Refusal>
    requires { (good_map (under form map) ≡ true) × (lengths_fit (under form map) (heap.now, (primary.now, secondary.now)) ≡ true) }
    ensures { (removed_by (heap.now, (primary.now, secondary.now)) result
        ≡ call (under form map) (plain.remove base.0) (heap.now, (primary.now, secondary.now)))
        × Removable (under form map) (heap.now, (primary.now, secondary.now)) base.0 result }
{
    match map.locate(base) {
        Located::Stack(p) => {
            // A block of four or eight bytes needs no reading.
            if let Some(length) = stack_whole_first::length_at(primary, p) {
                return Ok(Block { base: p, length });
            }
            ending(stack_read::read(primary, secondary, p), p)
        }
        // Two arms, each proved by its own area: a block of the heap is freed, not removed.
        Located::Heap(_) => Err(Refusal::Outside),
        Located::Outside => Err(Refusal::Outside),
    }
}
