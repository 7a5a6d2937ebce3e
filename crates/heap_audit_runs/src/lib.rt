// Segments of a heap shadow that the audit's walk passes at once: free ones, and the whole ones of a block.
#![tactic(auto)]

ghost use Rattle.std.specs.Prelude.{◌≡◌, ◌+◌, ◌*◌, ◌/◌, ◌%◌, ◌^◌, ◌<◌, ◌≤◌, length, ◌≢◌, IfSome};
ghost use Rattle.number.specs.Little.{word};
ghost use Rattle.number.specs.Parts.{at};
ghost use Rattle.map.specs.FormMap.{number_size, segment_size};
ghost use Rattle.heap_audit_laws.specs.Turn.{Kept};
ghost use Rattle.heap_audit_laws.specs.Runs.{Owned, Passed};

use heap_audit_laws::{Ahead, Walk};
use map::Form;
use number_runs::zero_32;
use number_words::eight_at;

// What the eight bytes at a place have above a segment's number: its written bits alone, if they are such a segment.
fn over_number(heap: &[u8], p: usize, number: u64) -> u64
    requires { p + 8 ≤ length heap.now }
    ensures { (result + number) % 2 ^ 64 ≡ word (at heap.now) p 8 }
{
    std::num::wrapping_sub_u64(eight_at(heap, p), number)
}

// The written bytes of n whole segments of the player from t on. One number is taken from a segment's eight bytes: to read two numbers by the
// form, as at the desk, takes 19 instructions for two segments where this takes 15.
fn player_ones(heap: &[u8], t: usize, n: usize, d: u32) -> Option<u32>
    requires { ((t + n) * 8 ≤ length heap.now) × (length heap.now ≤ 131072) × (d ≤ 131072) }
    ensures { IfSome result (λ m. Owned 4 8 (at heap.now) t d n m) }
{
    let mut number = u64::from(d) + 1;
    let mut over: u64 = 0;
    let mut written: u64 = 0;
    for j in 0..n {
        let bits = over_number(heap, (t + j) * 8, number);
        over = over | bits;
        written += u64::from(u64::count_ones(bits));
        number += 8;
    }
    if (over % 0x100000000 != 0) | (over >> 40 != 0) {
        return None;
    }
    Some(written as u32)
}

// The same of the desk's segments.
fn desk_ones(heap: &[u8], t: usize, n: usize, d: u32) -> Option<u32>
    requires { ((t + n) * 16 ≤ length heap.now) × (length heap.now ≤ 131072) × (d ≤ 131072) }
    ensures { IfSome result (λ m. Owned 8 16 (at heap.now) t d n m) }
{
    let mut number = u64::from(d) + 1;
    let mut wrong: u64 = 0;
    let mut bits: u64 = 0;
    let mut written: u64 = 0;
    for j in 0..n {
        let p = (t + j) * 16;
        let high = eight_at(heap, p + 8);
        wrong = wrong | (eight_at(heap, p) ^ number);
        bits = bits | high;
        written += u64::from(u64::count_ones(high));
        number += 16;
    }
    if (wrong != 0) | (bits >> 16 != 0) {
        return None;
    }
    Some(written as u32)
}

// The written bytes of n whole segments of a block from segment t on, the first at offset d, if they are the block's own. One pass with no early
// way out, which runs at memory speed.
fn ones(form: Form, heap: &[u8], t: usize, n: usize, d: u32) -> Option<u32>
    requires { ((t + n) * segment_size form ≤ length heap.now) × (length heap.now ≤ 131072) × (d ≤ 131072) }
    ensures { IfSome result (λ m. Owned (number_size form) (segment_size form) (at heap.now) t d n m) }
{
    match form {
        Form::Player => player_ones(heap, t, n, d),
        Form::Desk => desk_ones(heap, t, n, d),
    }
}

// The walk past the whole segments of a block that begins, if they are its own, but for the last, which the turn takes. Once in a block: where
// one is wrong the turns come to it, and to look again at each would take the square of the block's length.
fn whole(form: Form, heap: &[u8], s: usize, w: Walk) -> Ahead
    requires { (w.len ≢ 0) × (s < length heap.now / segment_size form) × (length heap.now % segment_size form ≡ 0)
        × (length heap.now ≤ 131072) × Kept (segment_size form) (length heap.now) s w }
    ensures { Passed (number_size form) (segment_size form) heap.now s w result.s result.w }
{
    let d = w.d;
    if d != 0 {
        return Ahead { s, w };
    }
    let segment = form.segment() as u32;
    let n = (w.len - d - 1) / segment;
    match ones(form, heap, s, n as usize, d) {
        Some(written) => Ahead {
            s: s + (n as usize),
            w: Walk {
                d: d + n * segment,
                live: w.live + n * segment,
                written: w.written + written,
                ..w
            },
        },
        None => Ahead { s, w },
    }
}

// The walk past free segments, 32 bytes at a time, but for the area's last segment, which the turn takes. The place where the loop ends is the
// result.
fn free(form: Form, heap: &[u8], s: usize, w: Walk) -> Ahead
    requires { (w.len ≡ 0) × (s < length heap.now / segment_size form) × (length heap.now ≤ 131072)
        × Kept (segment_size form) (length heap.now) s w }
    ensures { Passed (number_size form) (segment_size form) heap.now s w result.s result.w }
{
    let segment = form.segment();
    let mut t = s;
    while t * segment + segment + 32 <= heap.len() {
        if !zero_32(heap, t * segment) {
            break;
        }
        t += 32 / segment;
    }
    Ahead { s: t, w }
}

// The walk past the segments from s on that are looked at together.
pub fn ahead(form: Form, heap: &[u8], s: usize, w: Walk) -> Ahead
    requires { (s < length heap.now / segment_size form) × (length heap.now % segment_size form ≡ 0) × (length heap.now ≤ 131072)
        × Kept (segment_size form) (length heap.now) s w }
    ensures { Passed (number_size form) (segment_size form) heap.now s w result.s result.w }
{
    if w.len == 0 {
        free(form, heap, s, w)
    } else {
        whole(form, heap, s, w)
    }
}
