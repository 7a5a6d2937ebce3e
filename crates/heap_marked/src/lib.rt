// Written bits of the heap, tested: one byte has those of eight positions, a segment of the player, half a segment of the desk.
#![tactic(auto)]

ghost use Rattle.std.specs.Prelude.{◌≡◌, ◌+◌, ◌%◌, ◌≤◌, length};
ghost use Rattle.map.specs.FormMap.{number_size, segment_size};
ghost use Rattle.plain.specs.Ops.{range_marked};
ghost use Rattle.heap_layout.specs.Ops.{heap_ops};

use map::{Form, Position};

// Whether the written bits of the n positions from p on are set: one test of each byte that has some of them.
pub fn marked(form: Form, heap: &[u8], p: Position, n: u32) -> bool
    requires { (p.0 + n ≤ length heap.now) × (length heap.now % segment_size form ≡ 0) × (length heap.now ≤ 131072) }
    ensures { result ≡ range_marked (heap_ops (number_size form) (segment_size form) (length heap.now)) heap.now p.0 n }
{
    let Position(first) = p;
    // Of no position there may be no segment: p may be the shadow's end.
    if n == 0 {
        return true;
    }
    let start = first / 8 * 8;
    let byte = start + heap_bits::ahead_of(form, start).own;
    let j = (first % 8) as u32;
    if j + n <= 8 {
        return number_bits::bits_set(heap[byte], j, n);
    }
    let next = start + 8;
    let end = first + n as usize;
    number_bits::bits_set(heap[byte], j, 8 - j)
        && heap_marked_from::marked_from(form, heap, Position(next), Position(end))
}
