// A place for the next block: the smallest of the heap's gaps that fits.
#![tactic(auto)]

ghost use Rattle.std.specs.Prelude.{◌≡◌};
ghost use Rattle.map.specs.FormMap.{segment_size, under};
ghost use Rattle.plain.specs.Call as plain;
ghost use Rattle.monitor_base.specs.Answers.{answer_of, outcome};
ghost use Rattle.monitor_base.specs.Calls.{call};
ghost use Rattle.monitor_read_laws.specs.Roomed.{room_answer};
ghost use Rattle.heap_gap.specs.Scans.{chosen_of};
ghost use Rattle.monitor_place.specs.Room.{Fits};

use heap_gap::Scan;
use map::{Address, Form, Map, Position};
use monitor_base::{Answer, Refusal, guard};

// The base in the gap that is chosen, its second segment; the gaps looked at; the gap's bytes less those that header and block take.
fn answered(form: Form, start: Address, len: u32, g: Scan) -> Answer
    requires { Fits (segment_size form) start.0 len g }
    ensures { answer_of result ≡ room_answer (segment_size form) start.0 len g.looked (chosen_of g) }
{
    if g.bytes == 0 {
        return guard::refusal(Refusal::NoGap);
    }
    let second = g.start + form.segment();
    let base = map::to_address(Position(second), start);
    let left = g.bytes as u64 - heap_gap::needed(form, len);
    let surplus = left as u32;
    Answer {
        number: 0,
        first: base.0,
        second: g.looked,
        third: surplus,
        fourth: 0,
    }
}

// A base for a block of this length, in one of the first `budget` gaps.
pub fn place(
    form: Form,
    map: Map,
    heap: &[u8],
    primary: &[u8],
    secondary: &[u8],
    length: u32,
    budget: u32,
) -> Answer
    ensures { outcome result heap.now primary.now secondary.now
        ≡ call (under form map) (plain.place length budget) (heap.now, (primary.now, secondary.now)) }
{
    if let Err(refused) = guard::checked(form, map, heap.len(), primary.len(), secondary.len()) {
        return guard::refusal(refused);
    }
    if length == 0 {
        return guard::refusal(Refusal::Empty);
    }
    answered(
        form,
        Address(map.heap_start),
        length,
        heap_gaps::choose(form, heap, length, budget),
    )
}
