// Whether bytes lie in the block of their first: one reading, and an answer.
#![tactic(auto)]

ghost use Rattle.std.specs.Prelude.{◌≡◌, true};
ghost use Rattle.map.specs.FormMap.{under};
ghost use Rattle.map.specs.Map.{good_map};
ghost use Rattle.plain.specs.Areas.{map_rules};
ghost use Rattle.plain.specs.Ops.{read_any};
ghost use Rattle.shadows.specs.Shadows.{lengths_fit, shadow_ops};
ghost use Rattle.monitor_base.specs.Answers.{answer_of};
ghost use Rattle.monitor_read_laws.specs.Asked.{valid_answer};

use map::{Address, Form, Located, Map};
use monitor_base::Answer;
use monitor_yes_no::{judged, yes_no};

// What valid answers where both of its addresses are a, as at nearly every use of a pointer. The heap holds no literal: write plays no part there.
pub fn alone(
    form: Form,
    map: Map,
    heap: &[u8],
    primary: &[u8],
    secondary: &[u8],
    a: Address,
    n: u32,
    write: bool,
) -> Answer
    requires { (good_map (under form map) ≡ true) × (lengths_fit (under form map) (heap.now, (primary.now, secondary.now)) ≡ true) }
    ensures { answer_of result ≡ valid_answer write n
        (read_any (map_rules (under form map)) (shadow_ops (under form map)) (heap.now, (primary.now, secondary.now)) a.0)
        (read_any (map_rules (under form map)) (shadow_ops (under form map)) (heap.now, (primary.now, secondary.now)) a.0) }
{
    match map.locate(a) {
        Located::Heap(p) => {
            let r = heap_read::read(form, heap, p);
            judged(r, n, r, false)
        }
        Located::Stack(p) => {
            let r = stack_read::read(primary, secondary, p);
            judged(r, n, r, write)
        }
        Located::Outside => yes_no(false),
    }
}
