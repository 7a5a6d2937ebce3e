// The check of a mark of written bytes: it only reads.
#![tactic(auto)]

ghost use Rattle.std.specs.Prelude.{◌≡◌, ◌≢◌, MatchResult};
ghost use Rattle.map.specs.FormMap.{segment_size, under};
ghost use Rattle.map.specs.Locating.{Lies};
ghost use Rattle.plain.specs.Answers.{reading_of};
ghost use Rattle.plain.specs.Call as plain;
ghost use Rattle.monitor_base.specs.Refusals.{Decides, code_of};
ghost use Rattle.monitor_write_laws.specs.AreaCalls.{written_refusal};
ghost use Rattle.monitor_write_laws.specs.Checks.{number_of, Markable};

use map::{Address, Form, Located, Map};
use monitor_base::{Refusal, guard};
use plain::Reading;

// What a reading of the first of n bytes decides, in an area with literals or in one without: accepted where they lie in one block, which is no
// literal. The sum is taken in 64 bits, where it cannot wrap.
fn refused(r: Reading, n: u32, literals: bool) -> Result<(), Refusal>
    ensures { Decides (written_refusal literals n (reading_of r)) result }
{
    match r {
        Reading::Block(_, len, offset, bits) => {
            if (len as u64) < offset as u64 + n as u64 {
                return Err(Refusal::NoBlock);
            }
            if literals & (bits & 2 != 0) {
                return Err(Refusal::Literal);
            }
            Ok(())
        }
        Reading::Nothing | Reading::Damaged => Err(monitor_reading::missing(r)),
    }
}

// The place of the first of the n bytes.
pub fn check(
    form: Form,
    map: Map,
    heap: &[u8],
    primary: &[u8],
    secondary: &[u8],
    a: Address,
    n: u32,
) -> Result<Located, Refusal>
    ensures { MatchResult result
        (λ place. (number_of (under form map) (plain.written a.0 n) (heap.now, (primary.now, secondary.now)) ≡ 0)
        × Lies map a.0 place
        × Markable (segment_size form) place n heap.now primary.now)
        (λ e. (code_of e ≡ number_of (under form map) (plain.written a.0 n) (heap.now, (primary.now, secondary.now))) × (code_of e ≢ 0)) }
{
    guard::checked(form, map, heap.len(), primary.len(), secondary.len())?;
    if n == 0 {
        return Err(Refusal::Empty);
    }
    match map.locate(a) {
        Located::Heap(p) => {
            refused(heap_read::read(form, heap, p), n, false)?;
            Ok(Located::Heap(p))
        }
        Located::Stack(p) => {
            // A whole block of four or eight bytes needs no reading.
            if stack_whole::writable(primary, p, n) {
                return Ok(Located::Stack(p));
            }
            refused(stack_read::read(primary, secondary, p), n, true)?;
            Ok(Located::Stack(p))
        }
        Located::Outside => Err(Refusal::Outside),
    }
}
