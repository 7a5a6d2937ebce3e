// Written bits of the heap, set from a multiple of 8 on: one byte has those of eight positions.
#![tactic(auto)]

ghost use Rattle.std.specs.Prelude.{◌≡◌, ◌+◌, ◌-◌, ◌%◌, ◌≤◌, length};
ghost use Rattle.map.specs.FormMap.{number_size, segment_size};
ghost use Rattle.plain.specs.Ops.{mark_range};
ghost use Rattle.heap_layout.specs.Ops.{heap_ops};
ghost use Rattle.heap_bits.specs.Bytes.{LieAhead};

use heap_bits::Ahead;
use map::{Form, Position};

// Marks 16 positions.
fn mark_two(form: Form, heap: &mut [u8], at: usize, ahead: Ahead)
    requires at_value { (at % 8 ≡ 0) × (at + 16 ≤ length heap.old) × LieAhead form at ahead.own ahead.next }
    requires heap_len { (length heap.old % segment_size form ≡ 0) × (length heap.old ≤ 131072) }
    ensures { heap.new ≡ mark_range (heap_ops (number_size form) (segment_size form) (length heap.old)) heap.old at 16 }
{
    number_bits::set_bits(&mut heap[at + ahead.own], 0, 8);
    number_bits::set_bits(&mut heap[at + ahead.next], 0, 8);
}

// Marks from start to before end, at most 16 positions on.
fn mark_rest(form: Form, heap: &mut [u8], start: Position, end: Position, ahead: Ahead)
    requires start_value { (start.0 % 8 ≡ 0) × (start.0 ≤ end.0) × (end.0 ≤ start.0 + 16) × LieAhead form start.0 ahead.own ahead.next }
    requires heap_len { (end.0 ≤ length heap.old) × (length heap.old % segment_size form ≡ 0) × (length heap.old ≤ 131072) }
    ensures { heap.new ≡ mark_range (heap_ops (number_size form) (segment_size form) (length heap.old)) heap.old start.0 (end.0 - start.0) }
{
    let Position(at) = start;
    let Position(e) = end;
    let last = at + 8;
    if last < e {
        number_bits::set_bits(&mut heap[at + ahead.own], 0, 8);
        number_bits::set_bits(&mut heap[at + ahead.next], 0, (e - last) as u32);
        return;
    }
    if at < e {
        number_bits::set_bits(&mut heap[at + ahead.own], 0, (e - at) as u32);
    }
}

// Marks from a multiple of 8 to before end: 32 positions a turn, then 16, then what is left.
pub fn mark_from(form: Form, heap: &mut [u8], start: Position, end: Position)
    requires start_value { (start.0 % 8 ≡ 0) × (start.0 ≤ end.0) × (end.0 ≤ length heap.old) }
    requires heap_len { (length heap.old % segment_size form ≡ 0) × (length heap.old ≤ 131072) }
    ensures { heap.new ≡ mark_range (heap_ops (number_size form) (segment_size form) (length heap.old)) heap.old start.0 (end.0 - start.0) }
{
    let Position(s) = start;
    let Position(e) = end;
    let ahead = heap_bits::ahead_of(form, s);
    let mut at = s;
    // A `for` over the turns is slower: the compiler unrolls it, and ranges of 40 to 100 positions took 26 instructions more.
    while at + 32 <= e {
        mark_two(form, heap, at, ahead);
        mark_two(form, heap, at + 16, ahead);
        at += 32;
    }
    if at + 16 < e {
        mark_two(form, heap, at, ahead);
        mark_rest(form, heap, Position(at + 16), end, ahead);
        return;
    }
    mark_rest(form, heap, Position(at), end, ahead);
}
