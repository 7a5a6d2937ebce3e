// The reading of a position of the heap.
#![tactic(auto)]

ghost use Rattle.std.specs.Prelude.{◌≡◌, ◌%◌, ◌≤◌, ◌<◌, length};
ghost use Rattle.number.specs.Parts.{at};
ghost use Rattle.map.specs.FormMap.{number_size, segment_size};
ghost use Rattle.plain.specs.Answers.{reading_of};
ghost use Rattle.heap_layout.specs.Reading.{bits_place, heap_reading};

use map::{Form, Position};
use plain::Reading;

// Where the written bit of a position lies: a segment has them after its number, eight to a byte.
fn bits_place(form: Form, at: usize) -> usize
    requires { at < 131072 }
    ensures { result ≡ bits_place (number_size form) (segment_size form) at }
{
    form.start(at) + (form.number() + at % form.segment() / 8)
}

// The reading of a position. No test adds to a number, which may be any that its bytes hold and is compared in 64 bits, whatever the size of a
// pointer is: that the base lies in the first segment or below is segment ≤ d, as both are whole segments.
// That L = 0 is damaged needs no test: then w − 1 ≥ L.
pub fn read(form: Form, heap: &[u8], p: Position) -> Reading
    requires { (p.0 < length heap.now) × (length heap.now % segment_size form ≡ 0) × (length heap.now ≤ 131072) }
    ensures { reading_of result ≡ heap_reading (number_size form) (segment_size form) (length heap.now) (at heap.now) p.0 }
{
    let Position(at) = p;
    let segment = form.start(at);
    let w = heap_words::number_at(form, heap, segment);
    if w == 0 {
        return Reading::Nothing;
    }
    let d = w - 1;
    let step = form.segment() as u64;
    if d % step != 0 {
        return Reading::Damaged;
    }
    if segment as u64 <= d {
        return Reading::Damaged;
    }
    let base = segment - (d as usize);
    let middle = base - form.number();
    let length = heap_words::number(form, &heap[middle..base]);
    if ((heap.len() - base) as u64) < length {
        return Reading::Damaged;
    }
    if length <= d {
        return Reading::Damaged;
    }
    let offset = at - base;
    if length <= offset as u64 {
        return Reading::Nothing;
    }
    let written = number_bits::bit(heap[bits_place(form, at)], (at % 8) as u32);
    Reading::Block(Position(base), length as u32, offset as u32, written)
}
