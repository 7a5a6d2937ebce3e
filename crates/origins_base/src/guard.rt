// What every call of this form begins with: the map, and the lengths of shadows and cells.
ghost use Rattle.std.specs.Prelude.{◌≡◌, cond, ◌&&◌, ◌*◌, eqb};
ghost use Rattle.map.specs.FormMap.{player};
ghost use Rattle.map.specs.Map.{good_map};
ghost use Rattle.monitor_base.specs.Refusals.{Decides, code_of};

use map::{Form, Map};
use monitor_base::{Refusal, guard};

// Whether the cells are twice as long as their areas.
pub fn cells_fit(map: Map, heap_cells: usize, stack_cells: usize) -> bool
    ensures { result ≡ (eqb heap_cells (2 * map.heap_size) && eqb stack_cells (2 * map.stack_size)) }
{
    (heap_cells == 2 * (map.heap_size as usize)) & (stack_cells == 2 * (map.stack_size as usize))
}

// Why a call is refused whose cells do not fit: a map that breaks a rule comes first.
pub fn unfit(map: Map) -> Refusal
    ensures { code_of result ≡ cond (good_map (player map)) 2 1 }
{
    if map.good(Form::Player) {
        Refusal::BadLength
    } else {
        Refusal::BadMap
    }
}

// Whether the map keeps its rules, and shadows and cells have the lengths that it asks for.
pub fn checked(
    map: Map,
    heap: usize,
    primary: usize,
    secondary: usize,
    heap_cells: usize,
    stack_cells: usize,
) -> Result<(), Refusal>
    ensures { Decides (cond (good_map (player map))
        (cond (eqb heap map.heap_size && eqb primary map.stack_size && eqb secondary map.stack_size)
        (cond (eqb heap_cells (2 * map.heap_size) && eqb stack_cells (2 * map.stack_size)) 0 2) 2) 1) result }
{
    guard::checked(Form::Player, map, heap, primary, secondary)?;
    if cells_fit(map, heap_cells, stack_cells) {
        Ok(())
    } else {
        Err(Refusal::BadLength)
    }
}
