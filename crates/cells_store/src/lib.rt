// A number into one half of the cell that a position of an area lies in, in the cells of that area; the other half stays.
#![tactic(auto)]

ghost use Rattle.std.specs.Prelude.{◌≡◌, ◌*◌, ◌%◌, ◌≤◌, ◌<◌, length};
ghost use Rattle.cells_layout.specs.Area.{origin_place, referent_place, set_half};

use map::Position;

// Two names, and no half as a parameter: each is one call, at the place that its contract names.
pub fn store_origin(cells: &mut [u8], p: Position, value: u32)
    requires { (2 * p.0 < length cells.old) × (length cells.old % 8 ≡ 0) × (length cells.old ≤ 262144) }
    ensures { cells.new ≡ set_half cells.old (origin_place p.0) value }
{
    let Position(at) = p;
    number_words::put_at(cells, at / 4 * 8, value);
}

pub fn store_referent(cells: &mut [u8], p: Position, value: u32)
    requires { (2 * p.0 < length cells.old) × (length cells.old % 8 ≡ 0) × (length cells.old ≤ 262144) }
    ensures { cells.new ≡ set_half cells.old (referent_place p.0) value }
{
    let Position(at) = p;
    number_words::put_at(cells, at / 4 * 8 + 4, value);
}
