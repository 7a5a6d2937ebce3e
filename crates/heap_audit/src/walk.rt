// The audit's walk over the segments of a heap shadow, one segment a turn.
ghost use Rattle.std.specs.Prelude.{◌≡◌, ◌≢◌, ◌^◌, ◌/◌, ◌≤◌, ◌<◌, length};
ghost use Rattle.std.specs.Int.Count.{ones};
ghost use Rattle.map.specs.FormMap.{number_size, segment_size};
ghost use Rattle.heap_audit_laws.specs.Turn.{Kept, Stands, Turned};

use heap_audit_laws::Walk;
use heap_words::number_at;
use map::Form;

// The written bytes of a segment: the ones of its byte of written bits, at the desk of each of its two. The second number has no other bit.
fn marks(form: Form, high: u64) -> u32
    requires { high < 2 ^ segment_size form }
    ensures { (result ≡ ones high) × (result ≤ segment_size form) }
{
    match form {
        Form::Player => number_bits::ones(high as u8),
        Form::Desk => number_bits::ones((high % 256) as u8) + number_bits::ones((high / 256) as u8),
    }
}

// The turn at a segment where no block goes on: it is free, or the header of a block that ends inside the area. The length, of any 64 bits, is
// held against the bytes that are left, where no sum can pass 64 bits.
fn outside(form: Form, heap: &[u8], s: usize, w: Walk, low: u64, high: u64) -> Option<Walk>
    requires { (w.len ≡ 0) × Stands (number_size form) (segment_size form) heap.now s w low high }
    ensures { Turned (number_size form) (segment_size form) heap.now s w result }
{
    if low != 0 {
        return None;
    }
    if high == 0 {
        return Some(w);
    }
    let segment = form.segment();
    let left = heap.len() - (s * segment + segment);
    if (left as u64) < high {
        return None;
    }
    Some(Walk {
        len: high as u32,
        d: 0,
        blocks: w.blocks + 1,
        ..w
    })
}

// The turn at a segment of a block: its number, and no bit past the block's end.
fn inside(form: Form, heap: &[u8], s: usize, w: Walk, low: u64, high: u64) -> Option<Walk>
    requires { (w.len ≢ 0) × Stands (number_size form) (segment_size form) heap.now s w low high }
    ensures { Turned (number_size form) (segment_size form) heap.now s w result }
{
    let segment = form.segment() as u32;
    if low != u64::from(w.d + 1) {
        return None;
    }
    let bytes = segment.min(w.len - w.d);
    if high >> bytes != 0 {
        return None;
    }
    let live = w.live + bytes;
    let written = w.written + marks(form, high);
    let next = w.d + segment;
    if w.len <= next {
        return Some(Walk {
            len: 0,
            d: 0,
            live,
            written,
            ..w
        });
    }
    Some(Walk {
        d: next,
        live,
        written,
        ..w
    })
}

// The turn at segment s.
pub fn turn(form: Form, heap: &[u8], s: usize, w: Walk) -> Option<Walk>
    requires { (s < length heap.now / segment_size form) × (length heap.now ≤ 131072) × Kept (segment_size form) (length heap.now) s w }
    ensures { Turned (number_size form) (segment_size form) heap.now s w result }
{
    let p = s * form.segment();
    let low = number_at(form, heap, p);
    let high = number_at(form, heap, p + form.number());
    if w.len == 0 {
        outside(form, heap, s, w, low, high)
    } else {
        inside(form, heap, s, w, low, high)
    }
}
