// A heap block as it begins, stamped into its place: header and segments.
#![tactic(auto)]

ghost use Rattle.std.specs.Prelude.{◌≡◌, ◌+◌, ◌-◌, ◌%◌, ◌^◌, ◌≤◌, ◌<◌, length, replicate};
ghost use Rattle.number.specs.Bits.{of_bits};
ghost use Rattle.number.specs.Parts.{over};
ghost use Rattle.map.specs.FormMap.{number_size, segment_size};
ghost use Rattle.plain.specs.Block.{starts_written, begun};
ghost use Rattle.heap_layout.specs.Ops.{heap_stamp};
ghost use Rattle.heap_laws.specs.Pair.{pair_byte};

use map::{Form, Position};
use plain::Beginning;

// Two numbers into the segment at a position.
fn put_segment(form: Form, heap: &mut [u8], p: Position, low: u64, high: u64)
    requires { (p.0 + segment_size form ≤ length heap.old) × (low < 2 ^ 32) × (high < 2 ^ 32) }
    ensures { heap.new ≡ over p.0 (segment_size form) (λ q. pair_byte (number_size form) low high (q - p.0)) heap.old }
{
    let Position(at) = p;
    heap_words::put_at(form, heap, at, low);
    heap_words::put_at(form, heap, at + form.number(), high);
}

// The written bits of a segment of which the block has n bytes, as the block begins. None is set past its end.
fn first_bits(how: Beginning, n: u32) -> u64
    requires { n ≤ 16 }
    ensures { (result ≡ of_bits (replicate n (starts_written how))) × (result < 2 ^ 32) }
{
    match how {
        Beginning::Unwritten => 0,
        Beginning::Written | Beginning::Literal => u64::from(number_bits::low_bits(n)),
    }
}

// The header of a block, and for each of its segments the number and the written bits of the block's bytes in it, all set or none. Numbers are of
// 64 bits, so that each is one store.
pub fn stamp(form: Form, heap: &mut [u8], base: Position, len: u32, how: Beginning)
    requires form_bound { (segment_size form ≤ base.0) × (base.0 % segment_size form ≡ 0) × (base.0 + len ≤ length heap.old) }
    requires le_len { (1 ≤ len) × (length heap.old % segment_size form ≡ 0) × (length heap.old ≤ 131072) }
    ensures { heap.new ≡ heap_stamp (number_size form) (segment_size form) heap.old (begun how base.0 len) }
{
    let Position(b) = base;
    let length = len as usize;
    let step = form.segment();
    let header = b - step;
    put_segment(form, heap, Position(header), 0, length as u64);
    let whole = first_bits(how, step as u32);
    // The number is counted up beside i: taken from it, four segments cost the player 18 instructions in place of 12.
    let mut number = 1;
    for i in 0..length / step {
        put_segment(form, heap, Position(b + i * step), number, whole);
        number += step as u64;
    }
    let d = length / step * step;
    if d < length {
        let last = first_bits(how, (length - d) as u32);
        put_segment(form, heap, Position(b + d), d as u64 + 1, last);
    }
}
