// Written bits of the heap, tested from a multiple of 8 on: one byte has those of eight positions.
#![tactic(auto)]

ghost use Rattle.std.specs.Prelude.{◌≡◌, ◌+◌, ◌-◌, ◌%◌, ◌≤◌, length};
ghost use Rattle.map.specs.FormMap.{number_size, segment_size};
ghost use Rattle.plain.specs.Ops.{range_marked};
ghost use Rattle.heap_layout.specs.Ops.{heap_ops};
ghost use Rattle.heap_bits.specs.Bytes.{LieAhead};

use heap_bits::Ahead;
use map::{Form, Position};

// Whether 16 positions are marked.
fn two_marked(form: Form, heap: &[u8], at: usize, ahead: Ahead) -> bool
    requires at_value { (at % 8 ≡ 0) × (at + 16 ≤ length heap.now) × LieAhead form at ahead.own ahead.next }
    requires heap_len { (length heap.now % segment_size form ≡ 0) × (length heap.now ≤ 131072) }
    ensures { result ≡ range_marked (heap_ops (number_size form) (segment_size form) (length heap.now)) heap.now at 16 }
{
    number_bits::bits_set(heap[at + ahead.own], 0, 8)
        && number_bits::bits_set(heap[at + ahead.next], 0, 8)
}

// Whether 32 positions are marked, by one test.
fn four_marked(form: Form, heap: &[u8], at: usize, ahead: Ahead) -> bool
    requires at_value { (at % 8 ≡ 0) × (at + 32 ≤ length heap.now) × LieAhead form at ahead.own ahead.next }
    requires heap_len { (length heap.now % segment_size form ≡ 0) × (length heap.now ≤ 131072) }
    ensures { result ≡ range_marked (heap_ops (number_size form) (segment_size form) (length heap.now)) heap.now at 32 }
{
    let after = at + 16;
    number_bits::bits_set(heap[at + ahead.own], 0, 8)
        & number_bits::bits_set(heap[at + ahead.next], 0, 8)
        & number_bits::bits_set(heap[after + ahead.own], 0, 8)
        & number_bits::bits_set(heap[after + ahead.next], 0, 8)
}

// Whether all is marked from start to before end, at most 16 positions on.
fn rest_marked(form: Form, heap: &[u8], start: Position, end: Position, ahead: Ahead) -> bool
    requires start_value { (start.0 % 8 ≡ 0) × (start.0 ≤ end.0) × (end.0 ≤ start.0 + 16) × LieAhead form start.0 ahead.own ahead.next }
    requires heap_len { (end.0 ≤ length heap.now) × (length heap.now % segment_size form ≡ 0) × (length heap.now ≤ 131072) }
    ensures { result ≡ range_marked (heap_ops (number_size form) (segment_size form) (length heap.now)) heap.now start.0 (end.0 - start.0) }
{
    let Position(at) = start;
    let Position(e) = end;
    let last = at + 8;
    if last < e {
        return number_bits::bits_set(heap[at + ahead.own], 0, 8)
            && number_bits::bits_set(heap[at + ahead.next], 0, (e - last) as u32);
    }
    if at < e {
        return number_bits::bits_set(heap[at + ahead.own], 0, (e - at) as u32);
    }
    true
}

// Whether all is marked from a multiple of 8 to before end: 32 positions a turn, then 16, then what is left.
pub fn marked_from(form: Form, heap: &[u8], start: Position, end: Position) -> bool
    requires start_value { (start.0 % 8 ≡ 0) × (start.0 ≤ end.0) × (end.0 ≤ length heap.now) }
    requires heap_len { (length heap.now % segment_size form ≡ 0) × (length heap.now ≤ 131072) }
    ensures { result ≡ range_marked (heap_ops (number_size form) (segment_size form) (length heap.now)) heap.now start.0 (end.0 - start.0) }
{
    let Position(s) = start;
    let Position(e) = end;
    let ahead = heap_bits::ahead_of(form, s);
    let turns = (e - s) / 32;
    for i in 0..turns {
        if !four_marked(form, heap, s + 32 * i, ahead) {
            return false;
        }
    }
    let at = s + 32 * turns;
    if at + 16 < e {
        return two_marked(form, heap, at, ahead)
            && rest_marked(form, heap, Position(at + 16), end, ahead);
    }
    rest_marked(form, heap, Position(at), end, ahead)
}
