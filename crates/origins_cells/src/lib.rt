// The cells of the area that an address lies in: a number into half of a cell.
#![tactic(auto)]

ghost use Rattle.std.specs.Prelude.{◌≡◌};
ghost use Rattle.cells_layout.specs.Cells.{Cells};
ghost use Rattle.origins_laws.specs.CellsAt.{CellAt, set_origin_at, set_referent_at};

use map::Located;

pub fn set_origin(heap_cells: &mut [u8], stack_cells: &mut [u8], l: Located, value: u32)
    requires { CellAt l (heap_cells.old, stack_cells.old) }
    ensures { ◌≡◌ {A = Cells} (heap_cells.new, stack_cells.new)
        (set_origin_at l value (heap_cells.old, stack_cells.old)) }
{
    match l {
        Located::Heap(p) => cells_store::store_origin(heap_cells, p, value),
        Located::Stack(p) => cells_store::store_origin(stack_cells, p, value),
        Located::Outside => {}
    }
}

pub fn set_referent(heap_cells: &mut [u8], stack_cells: &mut [u8], l: Located, value: u32)
    requires { CellAt l (heap_cells.old, stack_cells.old) }
    ensures { ◌≡◌ {A = Cells} (heap_cells.new, stack_cells.new)
        (set_referent_at l value (heap_cells.old, stack_cells.old)) }
{
    match l {
        Located::Heap(p) => cells_store::store_referent(heap_cells, p, value),
        Located::Stack(p) => cells_store::store_referent(stack_cells, p, value),
        Located::Outside => {}
    }
}
