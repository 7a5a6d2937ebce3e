// The other questions of the plain form, in the form with origins: they only add that the cells fit.
#![tactic(auto)]

ghost use Rattle.std.specs.Prelude.{◌≡◌, ℕ};
ghost use Rattle.plain.specs.Call as base;
ghost use Rattle.origins_list.specs.Call.{plain};
ghost use Rattle.origins_base.specs.Answers.{lent, outcome_at};
ghost use Rattle.origins_base.specs.Calls.{call};

use map::{Address, Form, Map};
use monitor_base::Answer;
use monitor_base::guard::refusal;
use origins_base::guard::{cells_fit, unfit};

// Whether n bytes and the byte at from lie in one block, and, where the flag is set, may be written: 1 or 0.
pub fn valid(
    map: Map,
    heap: &[u8],
    primary: &[u8],
    secondary: &[u8],
    heap_cells: &[u8],
    stack_cells: &[u8],
    a: Address,
    n: u32,
    from: Address,
    write: bool,
) -> Answer
    ensures { (k : ℕ) → outcome_at k result heap.now primary.now secondary.now heap_cells.now stack_cells.now
        ≡ call map (plain (base.valid write a.0 n from.0))
        (lent heap.now primary.now secondary.now heap_cells.now stack_cells.now k) }
{
    if !cells_fit(map, heap_cells.len(), stack_cells.len()) {
        return refusal(unfit(map));
    }
    monitor_valid::valid(
        Form::Player,
        map,
        heap,
        primary,
        secondary,
        a,
        n,
        from,
        write,
    )
}

// Whether n bytes lie in one block and each is written: 1 or 0.
pub fn initialised(
    map: Map,
    heap: &[u8],
    primary: &[u8],
    secondary: &[u8],
    heap_cells: &[u8],
    stack_cells: &[u8],
    a: Address,
    n: u32,
) -> Answer
    ensures { (k : ℕ) → outcome_at k result heap.now primary.now secondary.now heap_cells.now stack_cells.now
        ≡ call map (plain (base.initialised a.0 n))
        (lent heap.now primary.now secondary.now heap_cells.now stack_cells.now k) }
{
    if !cells_fit(map, heap_cells.len(), stack_cells.len()) {
        return refusal(unfit(map));
    }
    monitor_initialised::initialised(Form::Player, map, heap, primary, secondary, a, n)
}

// Base and length of the first block whose base is at or above an address.
pub fn next(
    map: Map,
    heap: &[u8],
    primary: &[u8],
    secondary: &[u8],
    heap_cells: &[u8],
    stack_cells: &[u8],
    a: Address,
) -> Answer
    ensures { (k : ℕ) → outcome_at k result heap.now primary.now secondary.now heap_cells.now stack_cells.now
        ≡ call map (plain (base.next a.0))
        (lent heap.now primary.now secondary.now heap_cells.now stack_cells.now k) }
{
    if !cells_fit(map, heap_cells.len(), stack_cells.len()) {
        return refusal(unfit(map));
    }
    monitor_next::next(Form::Player, map, heap, primary, secondary, a)
}

// Heap blocks, stack blocks, live bytes, written bytes.
pub fn audit(
    map: Map,
    heap: &[u8],
    primary: &[u8],
    secondary: &[u8],
    heap_cells: &[u8],
    stack_cells: &[u8],
) -> Answer
    ensures { (k : ℕ) → outcome_at k result heap.now primary.now secondary.now heap_cells.now stack_cells.now
        ≡ call map (plain base.audit)
        (lent heap.now primary.now secondary.now heap_cells.now stack_cells.now k) }
{
    if !cells_fit(map, heap_cells.len(), stack_cells.len()) {
        return refusal(unfit(map));
    }
    monitor_audit::audit(Form::Player, map, heap, primary, secondary)
}
