// The state that a sample of the form with origins gives: `heap@8=1,0 stackcells@4=9 heapcells=120 counter=5`.
#![tactic(auto)]

pub mod figures;

ghost use Rattle.std.specs.Prelude.{◌≡◌, ◌≤◌, length, IfSome};
ghost use Rattle.samples_bytes.specs.Given as given;
ghost use Rattle.samples_state.specs.Figures.{Fit};
ghost use Rattle.samples_state.specs.State.{store_first, state, five, first, stored, store_any, part_at, end_of, figures_after, give_all};

use figures::{Figures, Part};

// Bytes of the shadow of this name, which is the first n bytes of a buffer, and the place after them.
fn store_first(line: &[u8], at: usize, name: &[u8], buffer: &mut [u8], n: usize) -> Option<usize>
    requires { n ≤ length buffer.old }
    ensures { given.stored result buffer.new ≡ store_first n line.now at name.now buffer.old }
{
    samples_bytes::store_named(line, at, name, &mut buffer[0..n])
}

// Bytes of any shadow.
fn store_any(
    line: &[u8],
    at: usize,
    heap: &mut [u8; 136],
    primary: &mut [u8; 136],
    secondary: &mut [u8; 136],
    heap_cells: &mut [u8; 136],
    stack_cells: &mut [u8; 136],
    f: Figures,
) -> Option<usize>
    requires { Fit f }
    ensures { stored result (five heap.new primary.new secondary.new heap_cells.new stack_cells.new)
        ≡ store_any line.now at f
        (five heap.old primary.old secondary.old heap_cells.old stack_cells.old) }
{
    let h = store_first(line, at, b"heap@", heap, f.heap);
    let p = store_first(line, at, b"pri@", primary, f.primary);
    let s = store_first(line, at, b"sec@", secondary, f.secondary);
    let hc = store_first(line, at, b"heapcells@", heap_cells, f.heap_cells);
    let sc = store_first(line, at, b"stackcells@", stack_cells, f.stack_cells);
    h.or(p).or(s).or(hc).or(sc)
}

// Bytes, a length or the counter: no more than one of the names stands there.
fn part_at(
    line: &[u8],
    at: usize,
    heap: &mut [u8; 136],
    primary: &mut [u8; 136],
    secondary: &mut [u8; 136],
    heap_cells: &mut [u8; 136],
    stack_cells: &mut [u8; 136],
    f: Figures,
) -> Option<Part>
    requires { Fit f }
    ensures { (stored (end_of result) (state (figures_after f result)
        (five heap.new primary.new secondary.new heap_cells.new stack_cells.new))
        ≡ part_at line.now at (state f
        (five heap.old primary.old secondary.old heap_cells.old stack_cells.old)))
        × IfSome result (λ t. Fit t.figures) }
{
    let stored = store_any(
        line,
        at,
        heap,
        primary,
        secondary,
        heap_cells,
        stack_cells,
        f,
    );
    if let Some(end) = stored {
        return Some(Part { figures: f, end });
    }
    figures::figures_at(line, at, f)
}

// The figures of a state, and the place after the colon that ends it, where it has one.
#[derive(Clone, Copy)]
pub struct Given {
    pub call: Option<usize>,
    pub figures: Figures,
}

// A state, each part of it after a space: the first state with what is given. The shadows are the first bytes of the buffers.
pub fn give(
    line: &[u8],
    at: usize,
    heap: &mut [u8; 136],
    primary: &mut [u8; 136],
    secondary: &mut [u8; 136],
    heap_cells: &mut [u8; 136],
    stack_cells: &mut [u8; 136],
) -> Given
    ensures { (stored result.call (state result.figures
        (five heap.new primary.new secondary.new heap_cells.new stack_cells.new))
        ≡ give_all 4096 line.now at (state first
        (five heap.old primary.old secondary.old heap_cells.old stack_cells.old)))
        × Fit result.figures }
{
    let mut figures = Figures {
        heap: 64,
        primary: 32,
        secondary: 32,
        heap_cells: 128,
        stack_cells: 64,
        counter: 1,
    };
    let mut place = at;
    for _ in 0..4096u32 {
        let start = samples_text::skip_spaces(line, place);
        if let Some(call) = samples_text::after(line, start, b':') {
            return Given {
                call: Some(call),
                figures,
            };
        }
        if start == place {
            return Given {
                call: None,
                figures,
            };
        }
        let Some(part) = part_at(
            line,
            start,
            heap,
            primary,
            secondary,
            heap_cells,
            stack_cells,
            figures,
        ) else {
            return Given {
                call: None,
                figures,
            };
        };
        figures = part.figures;
        place = part.end;
    }
    Given {
        call: None,
        figures,
    }
}
