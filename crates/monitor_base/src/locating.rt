// Where an area ends.
ghost use Rattle.std.specs.Prelude.{◌≡◌, ◌+◌, ◌-◌, ◌≤◌};
ghost use Rattle.map.specs.Map.{start_of, end_of};

use map::{Area, Map, Position};

// The position of an area's end.
pub fn end(map: Map, area: Area) -> Position
    requires { (map.heap_start + map.heap_size ≤ 4294967295) × (map.stack_start + map.stack_size ≤ 4294967295) }
    ensures { result.0 ≡ end_of map area - start_of map area }
{
    map::to_position(map.end_of(area), map.start_of(area))
}
