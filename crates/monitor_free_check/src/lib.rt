// The check of a free, after that of map and lengths: it only reads.
#![tactic(auto)]

ghost use Rattle.std.specs.Prelude.{◌≡◌, true};
ghost use Rattle.map.specs.FormMap.{number_size, segment_size, under};
ghost use Rattle.map.specs.Map.{good_map};
ghost use Rattle.shadows.specs.Shadows.{lengths_fit};
ghost use Rattle.plain.specs.Call as plain;
ghost use Rattle.monitor_base.specs.Calls.{call};
ghost use Rattle.monitor_write_laws.specs.Checks.{freed_by, Freeable};

use map::{Address, Form, Located, Map};
use monitor_base::{Block, Refusal};
use monitor_ending::ending;

// Only the first byte of a heap block is accepted, and C's null pointer, for which nothing is to be erased.
pub fn check(
    form: Form,
    map: Map,
    heap: &[u8],
    primary: &[u8],
    secondary: &[u8],
    base: Address,
) -> Result<Option<Block>, Refusal>
    requires { (good_map (under form map) ≡ true) × (lengths_fit (under form map) (heap.now, (primary.now, secondary.now)) ≡ true) }
    ensures { (freed_by (number_size form) (segment_size form) (heap.now, (primary.now, secondary.now)) result
        ≡ call (under form map) (plain.free base.0) (heap.now, (primary.now, secondary.now)))
        × Freeable (under form map) (heap.now, (primary.now, secondary.now)) base.0 result }
{
    match map.locate(base) {
        Located::Heap(p) => Ok(Some(ending(heap_read::read(form, heap, p), p)?)),
        Located::Stack(_) => Err(Refusal::NotHeap),
        Located::Outside => {
            // C's null pointer, which no area holds: there is nothing to free.
            if base.0 == 0 {
                return Ok(None);
            }
            Err(Refusal::Outside)
        }
    }
}
