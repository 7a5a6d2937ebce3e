// What the cells of the area that an address lies in hold: the referent of its cell, the origin of its block.
#![tactic(auto)]

ghost use Rattle.std.specs.Prelude.{◌≡◌};
ghost use Rattle.plain.specs.Answers.{reading_of};
ghost use Rattle.origins_laws.specs.CellsAt.{CellAt, referent_at, origin_in, origin_at};
ghost use Rattle.origins_laws.specs.Pointers.{BaseIn, BaseAt};

use map::Located;
use plain::Reading;

pub fn referent(heap_cells: &[u8], stack_cells: &[u8], l: Located) -> u32
    requires { CellAt l (heap_cells.now, stack_cells.now) }
    ensures { result ≡ referent_at l (heap_cells.now, stack_cells.now) }
{
    match l {
        Located::Heap(p) => cells_read::referent_at(heap_cells, p),
        Located::Stack(p) => cells_read::referent_at(stack_cells, p),
        Located::Outside => 0,
    }
}

// The origin stands in the cell of the block's base; 0 where there is no block.
fn origin_in(cells: &[u8], r: Reading) -> u32
    requires { BaseIn cells.now (reading_of r) }
    ensures { result ≡ origin_in cells.now (reading_of r) }
{
    match r {
        Reading::Nothing => 0,
        Reading::Damaged => 0,
        Reading::Block(base, _, _, _) => cells_read::origin_at(cells, base),
    }
}

// Of the block that the reading of that place gives.
pub fn origin_of(heap_cells: &[u8], stack_cells: &[u8], l: Located, r: Reading) -> u32
    requires { BaseAt l (reading_of r) (heap_cells.now, stack_cells.now) }
    ensures { result ≡ origin_at l (reading_of r) (heap_cells.now, stack_cells.now) }
{
    match l {
        Located::Heap(_) => origin_in(heap_cells, r),
        Located::Stack(_) => origin_in(stack_cells, r),
        Located::Outside => 0,
    }
}
