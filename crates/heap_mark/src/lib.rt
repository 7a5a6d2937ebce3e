// Written bits of the heap, set: one byte has those of eight positions, a segment of the player, half a segment of the desk.
#![tactic(auto)]

ghost use Rattle.std.specs.Prelude.{◌≡◌, ◌+◌, ◌%◌, ◌≤◌, length};
ghost use Rattle.map.specs.FormMap.{number_size, segment_size};
ghost use Rattle.plain.specs.Ops.{mark_range};
ghost use Rattle.heap_layout.specs.Ops.{heap_ops};

use map::{Form, Position};

// Sets the written bits of the n positions from p on. What sets those of a byte is lent that byte alone.
pub fn mark(form: Form, heap: &mut [u8], p: Position, n: u32)
    requires { (p.0 + n ≤ length heap.old) × (length heap.old % segment_size form ≡ 0) × (length heap.old ≤ 131072) }
    ensures { heap.new ≡ mark_range (heap_ops (number_size form) (segment_size form) (length heap.old)) heap.old p.0 n }
{
    let Position(first) = p;
    // Of no position there may be no segment: p may be the shadow's end.
    if n == 0 {
        return;
    }
    let start = first / 8 * 8;
    let ahead = heap_bits::ahead_of(form, start);
    let byte = start + ahead.own;
    let j = (first % 8) as u32;
    if j + n <= 8 {
        number_bits::set_bits(&mut heap[byte], j, n);
        return;
    }
    number_bits::set_bits(&mut heap[byte], j, 8 - j);
    if j + n <= 16 {
        number_bits::set_bits(&mut heap[start + ahead.next], 0, j + n - 8);
        return;
    }
    let next = start + 8;
    let end = first + n as usize;
    heap_mark_from::mark_from(form, heap, Position(next), Position(end));
}
