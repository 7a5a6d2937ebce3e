// The check of a copy: it only reads.
#![tactic(auto)]

ghost use Rattle.cells_layout.specs.Cells.{cell_ops};
ghost use Rattle.origins_laws.specs.Pointers.{copy_number};
ghost use Rattle.origins_pointer.specs.Aims.{AimsAt};

use map::{Address, Form, Located, Map};
use monitor_base::Refusal;
use origins_base::guard;
use origins_cells_read::referent;
use origins_pointer::{Aim, copy_refusal};

// The origin is the referent of the second cell.
pub fn check(
    map: Map,
    heap: &[u8],
    primary: &[u8],
    secondary: &[u8],
    heap_cells: &[u8],
    stack_cells: &[u8],
    to: Address,
    from: Address,
) -> Result<Aim, Refusal>
    ensures { AimsAt map (heap.now, (primary.now, secondary.now)) (heap_cells.now, stack_cells.now) to.0
        (copy_number map (heap.now, (primary.now, secondary.now)) (heap_cells.now, stack_cells.now) to.0 from.0)
        ((cell_ops map).referent (heap_cells.now, stack_cells.now) from.0) result }
{
    guard::checked(
        map,
        heap.len(),
        primary.len(),
        secondary.len(),
        heap_cells.len(),
        stack_cells.len(),
    )?;
    let place = map.locate(to);
    let there = match place {
        Located::Heap(p) => heap_read::read(Form::Player, heap, p),
        Located::Stack(p) => stack_read::read(primary, secondary, p),
        Located::Outside => return Err(Refusal::Outside),
    };
    let source = map.locate(from);
    let held = match source {
        Located::Heap(p) => heap_read::read(Form::Player, heap, p),
        Located::Stack(p) => stack_read::read(primary, secondary, p),
        Located::Outside => return Err(Refusal::Outside),
    };
    copy_refusal(to, from, there, held)?;
    Ok(Aim {
        place,
        origin: referent(heap_cells, stack_cells, source),
    })
}
