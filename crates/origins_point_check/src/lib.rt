// The check of a point: it only reads.
#![tactic(auto)]

ghost use Rattle.origins_laws.specs.Pointers.{point_number, origin_held};
ghost use Rattle.origins_pointer.specs.Aims.{AimsAt};

use map::{Address, Form, Located, Map};
use monitor_base::Refusal;
use origins_base::guard;
use origins_cells_read::origin_of;
use origins_pointer::{Aim, point_refusal};
use plain::Reading;

// The origin is that of the block that holds the address, 0 where there is none: an address in neither area is in no block.
pub fn check(
    map: Map,
    heap: &[u8],
    primary: &[u8],
    secondary: &[u8],
    heap_cells: &[u8],
    stack_cells: &[u8],
    cell: Address,
    a: Address,
) -> Result<Aim, Refusal>
    ensures { AimsAt map (heap.now, (primary.now, secondary.now)) (heap_cells.now, stack_cells.now) cell.0
        (point_number map (heap.now, (primary.now, secondary.now)) (heap_cells.now, stack_cells.now) cell.0 a.0)
        (origin_held map (heap.now, (primary.now, secondary.now)) (heap_cells.now, stack_cells.now) a.0) result }
{
    guard::checked(
        map,
        heap.len(),
        primary.len(),
        secondary.len(),
        heap_cells.len(),
        stack_cells.len(),
    )?;
    let place = map.locate(cell);
    let held = match place {
        Located::Heap(p) => heap_read::read(Form::Player, heap, p),
        Located::Stack(p) => stack_read::read(primary, secondary, p),
        Located::Outside => return Err(Refusal::Outside),
    };
    let target = map.locate(a);
    let told = match target {
        Located::Heap(p) => heap_read::read(Form::Player, heap, p),
        Located::Stack(p) => stack_read::read(primary, secondary, p),
        Located::Outside => Reading::Nothing,
    };
    point_refusal(cell, held, told)?;
    Ok(Aim {
        place,
        origin: origin_of(heap_cells, stack_cells, target, told),
    })
}
