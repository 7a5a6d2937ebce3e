// One gap of a heap, and one segment of the pass that finds it.
#![tactic(auto)]

ghost use Rattle.std.specs.Prelude.{◌≡◌, ◌+◌, ◌≤◌, length};
ghost use Rattle.map.specs.FormMap.{segment_size};
ghost use Rattle.plain.specs.Areas.{place_length};
ghost use Rattle.heap_gap.specs.Scans.{Ready, Tells, ended, turned};

use map::Form;
use number_words::eight_at;

// How many gaps are looked at, and which is chosen: where it begins, and its bytes, 0 where none fits. And the bytes of the free segments right
// before the pass.
#[derive(Clone, Copy)]
pub struct Scan {
    pub looked: u32,
    pub start: usize,
    // No `Option`: the clause `bytes_in_bounds` of `heap_gaps::choose` and `Fits` of monitor_place speak of `start` and `bytes` of every scan.
    pub bytes: usize,
    pub run: usize,
}

// How many bytes header and block take, in whole segments: more than 32 bits hold where the block is largest.
pub fn needed(form: Form, len: u32) -> u64
    ensures { result ≡ place_length (segment_size form) len }
{
    let step = form.segment();
    (step + form.start(len as usize + (step - 1))) as u64
}

// The bytes of the segment at p in one number, zero exactly if the segment is free.
pub fn segment_at(form: Form, heap: &[u8], p: usize) -> u64
    requires { p + segment_size form ≤ length heap.now }
    ensures { Tells (segment_size form) heap.now p result }
{
    match form {
        Form::Player => eight_at(heap, p),
        Form::Desk => eight_at(heap, p) | eight_at(heap, p + 8),
    }
}

// The free segments end at p: where there are some, and the budget is not used up, they are a gap that is looked at. It is chosen if it fits and is
// smaller than the one chosen so far.
pub fn ended(g: Scan, p: usize, need: u64, budget: u32) -> Scan
    requires { Ready g p budget }
    ensures { result ≡ ended g p need budget }
{
    let run = g.run;
    if (run == 0) | (g.looked == budget) {
        return Scan { run: 0, ..g };
    }
    let looked = g.looked + 1;
    if (need <= run as u64) & ((g.bytes == 0) | (run < g.bytes)) {
        return Scan {
            looked,
            start: p - run,
            bytes: run,
            run: 0,
        };
    }
    Scan {
        looked,
        run: 0,
        ..g
    }
}

// The pass goes on over the segment at p, whose bytes are w.
pub fn turn(form: Form, g: Scan, p: usize, w: u64, need: u64, budget: u32) -> Scan
    requires { Ready g p budget × (p ≤ 131072) }
    ensures { result ≡ turned (segment_size form) g p w need budget }
{
    if w != 0 {
        return ended(g, p, need, budget);
    }
    Scan {
        run: g.run + form.segment(),
        ..g
    }
}
