// Zeros in both halves of each cell that touches a block, in the cells of its area.
#![tactic(auto)]

ghost use Rattle.std.specs.Prelude.{◌≡◌, ◌+◌, ◌*◌, ◌%◌, ◌≤◌, length};
ghost use Rattle.cells_layout.specs.Area.{zero_cells};

use map::Position;

// From the cell that the block's first byte lies in, up to that of its last.
pub fn zero(cells: &mut [u8], p: Position, len: u32)
    requires { (2 * (p.0 + len) ≤ length cells.old) × (length cells.old % 8 ≡ 0) × (length cells.old ≤ 262144) }
    ensures { cells.new ≡ zero_cells cells.old p.0 len }
{
    let Position(at) = p;
    let first = at / 4;
    let end = (at + len as usize + 3) / 4;
    number_zeros::fill_zero_at(cells, first * 8, (end - first) * 8);
}
