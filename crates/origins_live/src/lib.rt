// Whether the allocation that the pointer in a cell was last set to is live and holds an address: two readings, and two origins that are
// the same.
#![tactic(auto)]

ghost use Rattle.std.specs.Prelude.{◌≡◌, ℕ};
ghost use Rattle.origins_list.specs.Call as form;
ghost use Rattle.origins_base.specs.Answers.{lent, outcome_at};
ghost use Rattle.origins_base.specs.Calls.{call};

use map::{Address, Form, Located, Map};
use monitor_base::{Answer, Refusal, guard};
use monitor_yes_no::yes_no;
use origins_base::guard::checked;
use origins_cells_read::{origin_of, referent};
use origins_pointer::point_refusal;
use plain::Reading;

// 1 or 0. A pointer that was set to no block has the referent 0, which is no origin. The check of point is written out here: as a function of
// its own, which takes slices and returns a place, it costs a fifth more in the call that guards every use of a pointer.
pub fn live(
    map: Map,
    heap: &[u8],
    primary: &[u8],
    secondary: &[u8],
    heap_cells: &[u8],
    stack_cells: &[u8],
    cell: Address,
    a: Address,
) -> Answer
    ensures { (k : ℕ) → outcome_at k result heap.now primary.now secondary.now heap_cells.now stack_cells.now
        ≡ call map (form.live cell.0 a.0) (lent heap.now primary.now secondary.now heap_cells.now stack_cells.now k) }
{
    if let Err(refused) = checked(
        map,
        heap.len(),
        primary.len(),
        secondary.len(),
        heap_cells.len(),
        stack_cells.len(),
    ) {
        return guard::refusal(refused);
    }
    let place = map.locate(cell);
    let held = match place {
        Located::Heap(p) => heap_read::read(Form::Player, heap, p),
        Located::Stack(p) => stack_read::read(primary, secondary, p),
        Located::Outside => return guard::refusal(Refusal::Outside),
    };
    let target = map.locate(a);
    let told = match target {
        Located::Heap(p) => heap_read::read(Form::Player, heap, p),
        Located::Stack(p) => stack_read::read(primary, secondary, p),
        Located::Outside => Reading::Nothing,
    };
    if let Err(refused) = point_refusal(cell, held, told) {
        return guard::refusal(refused);
    }
    let set = referent(heap_cells, stack_cells, place);
    let origin = origin_of(heap_cells, stack_cells, target, told);
    yes_no((set != 0) & (origin == set))
}
