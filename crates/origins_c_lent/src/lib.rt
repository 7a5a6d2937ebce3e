// What the exported functions of the form with origins share besides `monitor_c_lent`: the counter is lent too. And the calls whose addresses
// could be taken for each other.
#![tactic(auto)]

ghost use Rattle.std.specs.Prelude.{◌≡◌, ℕ, length};
ghost use Rattle.plain.specs.Call as calls;
ghost use Rattle.monitor_base.specs.Answers.{answer_of};
ghost use Rattle.monitor_c_lent.specs.Lent.{map_of, answered};
ghost use Rattle.origins_list.specs.Call.{plain, point, copy, live};
ghost use Rattle.origins_base.specs.Answers.{lent, outcome_at};
ghost use Rattle.origins_base.specs.Calls.{call};

use map::Address;
use monitor_base::Answer;
use monitor_c_lent::{map_of, told};
use origins_base::Counted;

// The counter and the fields go where they were lent, the number is the result.
pub fn counted(r: Counted, counter: &mut u64, fields: &mut [u32]) -> u32
    requires { length fields.old ≡ 4 }
    ensures { (answered result fields.new ≡ answer_of r.answer) × (counter.new ≡ r.counter) }
{
    *counter = r.counter;
    told(r.answer, fields)
}

// Whether n bytes from an address on lie in the block of another, and, where the flag is set, may be written.
pub fn valid(
    map: &[u32; 4],
    heap: &[u8],
    primary: &[u8],
    secondary: &[u8],
    heap_cells: &[u8],
    stack_cells: &[u8],
    address: u32,
    n: u32,
    from: u32,
    write: bool,
) -> Answer
    ensures { (k : ℕ) → outcome_at k result heap.now primary.now secondary.now heap_cells.now stack_cells.now
        ≡ call (map_of map.now) (plain (calls.valid write address n from))
        (lent heap.now primary.now secondary.now heap_cells.now stack_cells.now k) }
{
    origins_questions::valid(
        map_of(map),
        heap,
        primary,
        secondary,
        heap_cells,
        stack_cells,
        Address(address),
        n,
        Address(from),
        write,
    )
}

// The pointer in a cell is set to the block that holds an address.
pub fn point(
    map: &[u32; 4],
    heap: &[u8],
    primary: &[u8],
    secondary: &[u8],
    heap_cells: &mut [u8],
    stack_cells: &mut [u8],
    cell: u32,
    address: u32,
) -> Answer
    ensures { (k : ℕ) → outcome_at k result heap.now primary.now secondary.now heap_cells.new stack_cells.new
        ≡ call (map_of map.now) (point cell address)
        (lent heap.now primary.now secondary.now heap_cells.old stack_cells.old k) }
{
    origins_point::point(
        map_of(map),
        heap,
        primary,
        secondary,
        heap_cells,
        stack_cells,
        Address(cell),
        Address(address),
    )
}

// The pointer in one cell is set as that in another.
pub fn copy(
    map: &[u32; 4],
    heap: &[u8],
    primary: &[u8],
    secondary: &[u8],
    heap_cells: &mut [u8],
    stack_cells: &mut [u8],
    to: u32,
    source: u32,
) -> Answer
    ensures { (k : ℕ) → outcome_at k result heap.now primary.now secondary.now heap_cells.new stack_cells.new
        ≡ call (map_of map.now) (copy to source)
        (lent heap.now primary.now secondary.now heap_cells.old stack_cells.old k) }
{
    origins_copy::copy(
        map_of(map),
        heap,
        primary,
        secondary,
        heap_cells,
        stack_cells,
        Address(to),
        Address(source),
    )
}

// Whether what the pointer in a cell was set to is live and holds an address.
pub fn live(
    map: &[u32; 4],
    heap: &[u8],
    primary: &[u8],
    secondary: &[u8],
    heap_cells: &[u8],
    stack_cells: &[u8],
    pointer: u32,
    address: u32,
) -> Answer
    ensures { (k : ℕ) → outcome_at k result heap.now primary.now secondary.now heap_cells.now stack_cells.now
        ≡ call (map_of map.now) (live pointer address)
        (lent heap.now primary.now secondary.now heap_cells.now stack_cells.now k) }
{
    origins_live::live(
        map_of(map),
        heap,
        primary,
        secondary,
        heap_cells,
        stack_cells,
        Address(pointer),
        Address(address),
    )
}
