// The audit of a heap shadow, segment by segment.
#![tactic(auto)]

mod walk;

ghost use Rattle.std.specs.Prelude.{◌≡◌, ◌%◌, ◌≤◌, length};
ghost use Rattle.map.specs.FormMap.{number_size, segment_size};
ghost use Rattle.plain.specs.Answers.{heap_tally};
ghost use Rattle.heap_layout.specs.Ops.{heap_ops};

use heap_audit_laws::Walk;
use heap_audit_runs::ahead;
use map::Form;
use plain::Totals;

// Blocks, live bytes and written bytes of the list of which the shadow is the image, or that it is none. No block is open at the end:
// each ends inside the area.
pub fn audit(form: Form, heap: &[u8]) -> Option<Totals>
    requires { (length heap.now % segment_size form ≡ 0) × (length heap.now ≤ 131072) }
    ensures { heap_tally result ≡ (heap_ops (number_size form) (segment_size form) (length heap.now)).audit heap.now }
{
    let segments = heap.len() / form.segment();
    let mut w = Walk {
        len: 0,
        d: 0,
        blocks: 0,
        live: 0,
        written: 0,
    };
    let mut s: usize = 0;
    // The step varies: the segments that are passed at once, and the one of the turn.
    while s < segments {
        let r = ahead(form, heap, s, w);
        w = walk::turn(form, heap, r.s, r.w)?;
        s = r.s + 1;
    }
    Some(Totals {
        blocks: w.blocks,
        live: w.live,
        written: w.written,
    })
}
