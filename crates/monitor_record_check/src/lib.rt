// The check of a record: it only reads.
#![tactic(auto)]

ghost use Rattle.std.specs.Prelude.{IfOk};
ghost use Rattle.map.specs.FormMap.{segment_size, under};
ghost use Rattle.plain.specs.Call as plain;
ghost use Rattle.map.specs.Locating.{Lies};
ghost use Rattle.monitor_base.specs.Refusals.{Decides};
ghost use Rattle.monitor_write_laws.specs.Checks.{number_of, Stampable};

use map::{Address, Area, Form, Located, Map};
use monitor_base::locating::end;
use monitor_base::{Refusal, guard};
use plain::Beginning;

// How the block begins counts in the heap alone, where no literal does. Where nothing is refused, the block can be stamped at the place.
pub fn check(
    form: Form,
    map: Map,
    heap: &[u8],
    primary: &[u8],
    secondary: &[u8],
    base: Address,
    len: u32,
    how: Beginning,
) -> Result<Located, Refusal>
    ensures { Decides (number_of (under form map) (plain.begin how base.0 len) (heap.now, (primary.now, secondary.now))) result
        × IfOk result (λ place. Lies map base.0 place × Stampable (segment_size form) place len (heap.now, (primary.now, secondary.now))) }
{
    guard::checked(form, map, heap.len(), primary.len(), secondary.len())?;
    if len == 0 {
        return Err(Refusal::Empty);
    }
    let place = map.locate(base);
    match place {
        Located::Heap(p) => {
            if let Beginning::Literal = how {
                return Err(Refusal::Outside);
            }
            monitor_begin::on_heap(form, heap, p, end(map, Area::Heap), len)?;
            Ok(place)
        }
        Located::Stack(p) => {
            monitor_begin::on_stack(primary, secondary, p, end(map, Area::Stack), len)?;
            Ok(place)
        }
        Located::Outside => Err(Refusal::Outside),
    }
}
