// Free segments passed at once by the search for the next block.
#![tactic(auto)]

ghost use Rattle.std.specs.Prelude.{◌≡◌, ◌+◌, ◌*◌, ◌%◌, ◌≤◌, ◌<◌, length};
ghost use Rattle.number.specs.Parts.{at};
ghost use Rattle.map.specs.FormMap.{number_size, segment_size};
ghost use Rattle.heap_laws.specs.Climb.{free_run, FreeSegments};

use heap_words::number_at;
use map::{Form, Position};

// Whether the four segments from a place on are free: four loads and one test.
fn four_free(form: Form, heap: &[u8], from: usize) -> bool
    requires { from + 4 * segment_size form ≤ length heap.now }
    ensures { result ≡ free_run (number_size form) (segment_size form) (at heap.now) from 4 }
{
    let step = form.segment();
    (number_at(form, heap, from)
        | number_at(form, heap, from + step)
        | number_at(form, heap, from + 2 * step)
        | number_at(form, heap, from + 3 * step))
        == 0
}

// Past the segment of a position, in which no other block begins, and the free segments after it.
pub fn past_segments(form: Form, heap: &[u8], p: Position) -> Position
    requires { (p.0 < length heap.now) × (length heap.now % segment_size form ≡ 0) × (length heap.now ≤ 131072) }
    ensures { FreeSegments (number_size form) (segment_size form) (length heap.now) (at heap.now) p.0 result.0 }
{
    let step = form.segment();
    let mut at = form.start(p.0) + step;
    // The place where the loops end is the answer: a `for` would have to carry it out.
    while at + 4 * step <= heap.len() && four_free(form, heap, at) {
        at += 4 * step;
    }
    while at < heap.len() && number_at(form, heap, at) == 0 {
        at += step;
    }
    Position(at)
}
