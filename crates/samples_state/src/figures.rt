// The numbers of a state: `heapcells=120`, `counter=5`.
ghost use Rattle.std.specs.Prelude.{◌≡◌, ◌≤◌, IfSome};
ghost use Rattle.samples_state.specs.Figures.{length_at, counter_at, figures_at, Fit};

use samples_text::{after_word, long_at, number_at};

// How long each shadow is, and the counter.
#[derive(Clone, Copy)]
pub struct Figures {
    pub heap: usize,
    pub primary: usize,
    pub secondary: usize,
    pub heap_cells: usize,
    pub stack_cells: usize,
    pub counter: u64,
}

// Figures, and the place after the number that is one of them.
#[derive(Clone, Copy)]
pub struct Part {
    pub figures: Figures,
    pub end: usize,
}

// The length after this name, 136 at most, and the place after it.
fn length_at(line: &[u8], at: usize, name: &[u8]) -> Option<(usize, usize)>
    ensures { (result ≡ length_at line.now at name.now) × IfSome result (λ n. n.0 ≤ 136) }
{
    let start = after_word(line, at, name)?;
    let (length, end) = number_at(line, start)?;
    if 136 < length {
        return None;
    }
    Some((length as usize, end))
}

fn counter_at(line: &[u8], at: usize) -> Option<(u64, usize)>
    ensures { result ≡ counter_at line.now at }
{
    let start = after_word(line, at, b"counter=")?;
    long_at(line, start)
}

// Whichever number stands there.
pub fn figures_at(line: &[u8], at: usize, f: Figures) -> Option<Part>
    requires { Fit f }
    ensures { (result ≡ figures_at line.now at f) × IfSome result (λ t. Fit t.figures) }
{
    if let Some((heap, end)) = length_at(line, at, b"heap=") {
        let figures = Figures { heap, ..f };
        return Some(Part { figures, end });
    }
    if let Some((primary, end)) = length_at(line, at, b"pri=") {
        let figures = Figures { primary, ..f };
        return Some(Part { figures, end });
    }
    if let Some((secondary, end)) = length_at(line, at, b"sec=") {
        let figures = Figures { secondary, ..f };
        return Some(Part { figures, end });
    }
    if let Some((heap_cells, end)) = length_at(line, at, b"heapcells=") {
        let figures = Figures { heap_cells, ..f };
        return Some(Part { figures, end });
    }
    if let Some((stack_cells, end)) = length_at(line, at, b"stackcells=") {
        let figures = Figures { stack_cells, ..f };
        return Some(Part { figures, end });
    }
    let (counter, end) = counter_at(line, at)?;
    let figures = Figures { counter, ..f };
    Some(Part { figures, end })
}
