// What the cell that a position of an area lies in holds, in the cells of that area.
#![tactic(auto)]

ghost use Rattle.std.specs.Prelude.{◌≡◌, ◌*◌, ◌%◌, ◌≤◌, ◌<◌, length};
ghost use Rattle.cells_layout.specs.Area.{origin_place, referent_place, half_at};

use map::Position;

// Two names, and no half as a parameter: each is one call, at the place that its contract names.
pub fn origin_at(cells: &[u8], p: Position) -> u32
    requires { (2 * p.0 < length cells.now) × (length cells.now % 8 ≡ 0) × (length cells.now ≤ 262144) }
    ensures { result ≡ half_at cells.now (origin_place p.0) }
{
    let Position(at) = p;
    number_words::number_at(cells, at / 4 * 8)
}

pub fn referent_at(cells: &[u8], p: Position) -> u32
    requires { (2 * p.0 < length cells.now) × (length cells.now % 8 ≡ 0) × (length cells.now ≤ 262144) }
    ensures { result ≡ half_at cells.now (referent_place p.0) }
{
    let Position(at) = p;
    number_words::number_at(cells, at / 4 * 8 + 4)
}
