// The gaps of a heap shadow, looked at in one pass, segment by segment.
#![tactic(auto)]

ghost use Rattle.std.specs.Prelude.{◌≡◌, ◌+◌, ◌*◌, ◌%◌, ◌≤◌, length};
ghost use Rattle.map.specs.FormMap.{number_size, segment_size};
ghost use Rattle.plain.specs.Areas.{place_length};
ghost use Rattle.heap_gap.specs.Scans.{choice_of};
ghost use Rattle.heap_gap_laws.specs.Pass.{choice, Kept};

use heap_gap::{Scan, ended, needed, segment_at, turn};
use map::Form;

// The pass goes on over four segments: at once where all are free, or none is and no gap is open; else one by one.
fn four(form: Form, heap: &[u8], p: usize, g: Scan, need: u64, budget: u32) -> Scan
    requires { Kept (number_size form) (segment_size form) heap.now need budget g p × (p + 4 * segment_size form ≤ length heap.now)
        × (length heap.now ≤ 131072) }
    ensures { Kept (number_size form) (segment_size form) heap.now need budget result (p + 4 * segment_size form) }
{
    let step = form.segment();
    let a = segment_at(form, heap, p);
    let b = segment_at(form, heap, p + step);
    let c = segment_at(form, heap, p + 2 * step);
    let d = segment_at(form, heap, p + 3 * step);
    if (a == 0) & (b == 0) & (c == 0) & (d == 0) {
        return Scan {
            run: g.run + 4 * step,
            ..g
        };
    }
    if (g.run == 0) & (a != 0) & (b != 0) & (c != 0) & (d != 0) {
        return g;
    }
    let first = turn(form, g, p, a, need, budget);
    let second = turn(form, first, p + step, b, need, budget);
    let third = turn(form, second, p + 2 * step, c, need, budget);
    turn(form, third, p + 3 * step, d, need, budget)
}

// Of the first `budget` gaps the smallest that holds header and block, the lowest among equals.
pub fn choose(form: Form, heap: &[u8], len: u32, budget: u32) -> Scan
    requires { (length heap.now % segment_size form ≡ 0) × (length heap.now ≤ 131072) }
    ensures result_value { choice_of result ≡ choice (number_size form) (segment_size form) (place_length (segment_size form) len) budget heap.now }
    ensures bytes_in_bounds { result.start + result.bytes ≤ length heap.now }
{
    let need = needed(form, len);
    let step = form.segment();
    let mut g = Scan {
        looked: 0,
        start: 0,
        bytes: 0,
        run: 0,
    };
    let n = heap.len() / step;
    for i in 0..n / 4 {
        if g.looked == budget {
            return g;
        }
        g = four(form, heap, 4 * step * i, g, need, budget);
    }
    for i in n / 4 * 4..n {
        let p = step * i;
        g = turn(form, g, p, segment_at(form, heap, p), need, budget);
    }
    ended(g, heap.len(), need, budget)
}
