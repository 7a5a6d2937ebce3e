// The search for the next block, address by address.
#![tactic(auto)]

ghost use Rattle.std.specs.Prelude.{◌≡◌, true};
ghost use Rattle.map.specs.FormMap.{under};
ghost use Rattle.map.specs.Map.{good_map};
ghost use Rattle.plain.specs.Areas.{map_rules};
ghost use Rattle.plain.specs.Call as plain;
ghost use Rattle.plain.specs.ShadowCalls as shadow;
ghost use Rattle.shadows.specs.Shadows.{lengths_fit, shadow_ops};
ghost use Rattle.monitor_base.specs.Answers.{answer_of, outcome};
ghost use Rattle.monitor_base.specs.Calls.{call};
ghost use Rattle.monitor_next.specs.Searched.{search_of, search_answer};

use map::{Address, Form, Map};
use monitor_base::{Answer, Refusal, guard};

// The block that the search found.
#[derive(Clone, Copy)]
pub struct Found {
    pub base: Address,
    pub length: u32,
}

// A reading with offset 0 is of its block's base, a damaged one ends the search. Addresses whose reading is settled by the one just taken are passed at once.
fn climb(
    form: Form,
    map: Map,
    heap: &[u8],
    primary: &[u8],
    secondary: &[u8],
    a: Address,
) -> Result<Found, Refusal>
    requires { (good_map (under form map) ≡ true) × (lengths_fit (under form map) (heap.now, (primary.now, secondary.now)) ≡ true) }
    ensures { result ≡ search_of (shadow.search (map_rules (under form map)) (shadow_ops (under form map))
        (heap.now, (primary.now, secondary.now)) a.0) }
{
    let top = monitor_climb::top(map);
    let mut at = a;
    // What is found, or why nothing is, comes out of the loop by break: the search reads so by its specification.
    let found = loop {
        if top.0 <= at.0 {
            break Err(Refusal::NoBlock);
        }
        let l = map.locate(at);
        let r = monitor_reading::reading(form, heap, primary, secondary, l);
        if monitor_reading::damaged(r) {
            break Err(Refusal::Damaged);
        }
        if monitor_reading::first(r) {
            break Ok(Found {
                base: at,
                length: monitor_reading::length_of(r),
            });
        }
        at = monitor_climb::past(form, map, heap, primary, at, l);
    };
    found
}

fn answered(s: Result<Found, Refusal>) -> Answer
    ensures { answer_of result ≡ search_answer s }
{
    match s {
        Ok(block) => {
            Answer {
                number: 0,
                first: block.base.0,
                second: block.length,
                third: 0,
                fourth: 0,
            }
        }
        Err(refused) => guard::refusal(refused),
    }
}

// Base and length of the first block whose base is at or above an address.
pub fn next(
    form: Form,
    map: Map,
    heap: &[u8],
    primary: &[u8],
    secondary: &[u8],
    a: Address,
) -> Answer
    ensures { outcome result heap.now primary.now secondary.now
        ≡ call (under form map) (plain.next a.0) (heap.now, (primary.now, secondary.now)) }
{
    if let Err(refused) = guard::checked(form, map, heap.len(), primary.len(), secondary.len()) {
        return guard::refusal(refused);
    }
    answered(climb(form, map, heap, primary, secondary, a))
}
