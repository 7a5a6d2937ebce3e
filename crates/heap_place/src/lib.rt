// The place of a heap block, tested and emptied: its header and its whole segments.
#![tactic(auto)]

ghost use Rattle.std.specs.Prelude.{◌≡◌, ◌+◌, ◌%◌, ◌≤◌, length};
ghost use Rattle.map.specs.FormMap.{number_size, segment_size};
ghost use Rattle.plain.specs.Areas.{place_length};
ghost use Rattle.heap_layout.specs.Ops.{heap_vacant, heap_erase};

use map::{Form, Position};

// How many shadow bytes a block takes: its header and its whole segments.
fn place_length(form: Form, len: u32) -> usize
    ensures { result ≡ place_length (segment_size form) len }
{
    let segment = form.segment();
    segment + (len as usize + (segment - 1)) / segment * segment
}

// Whether each shadow byte of a block's place is zero.
pub fn vacant(form: Form, heap: &[u8], base: Position, len: u32) -> bool
    requires form_bound { (segment_size form ≤ base.0) × (base.0 % segment_size form ≡ 0) × (base.0 + len ≤ length heap.now) }
    requires le_len { (1 ≤ len) × (length heap.now % segment_size form ≡ 0) × (length heap.now ≤ 131072) }
    ensures { result ≡ heap_vacant (number_size form) (segment_size form) heap.now base.0 len }
{
    let header = base.0 - form.segment();
    number_zeros::zero_at(heap, header, place_length(form, len))
}

// Zeros in a block's place.
pub fn erase(form: Form, heap: &mut [u8], base: Position, len: u32)
    requires form_bound { (segment_size form ≤ base.0) × (base.0 % segment_size form ≡ 0) × (base.0 + len ≤ length heap.old) }
    requires le_len { (1 ≤ len) × (length heap.old % segment_size form ≡ 0) × (length heap.old ≤ 131072) }
    ensures { heap.new ≡ heap_erase (number_size form) (segment_size form) heap.old base.0 len }
{
    let header = base.0 - form.segment();
    number_zeros::fill_zero_at(heap, header, place_length(form, len));
}
