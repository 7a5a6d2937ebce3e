// How far the search for the next block goes on past an address: readings that are settled already are not taken.
#![tactic(auto)]

ghost use Rattle.std.specs.Prelude.{◌≡◌, true, ◌+◌, ◌≤◌, max, length};
ghost use Rattle.map.specs.FormMap.{under};
ghost use Rattle.map.specs.Map.{good_map};
ghost use Rattle.map.specs.Locating.{Lies};
ghost use Rattle.monitor_read_laws.specs.Climbed.{start_above, Skips};

use map::{Address, Area, Form, Located, Map};

// The end of the areas: no address from it on lies in one.
pub fn top(map: Map) -> Address
    requires { (map.heap_start + map.heap_size ≤ 4294967295) × (map.stack_start + map.stack_size ≤ 4294967295) }
    ensures { result.0 ≡ max (map.heap_start + map.heap_size) (map.stack_start + map.stack_size) }
{
    let heap = map.end_of(Area::Heap);
    let stack = map.end_of(Area::Stack);
    if heap.0 < stack.0 {
        return stack;
    }
    heap
}

// Past what lies outside both areas.
fn start_above(map: Map, a: Address) -> Address
    ensures { result.0 ≡ start_above map a.0 }
{
    let heap = map.heap_start;
    let stack = map.stack_start;
    if heap < stack {
        if a.0 < heap {
            return Address(heap);
        }
        return Address(stack);
    }
    if a.0 < stack {
        return Address(stack);
    }
    Address(heap)
}

// The address at which the search goes on, past one whose reading it has passed.
pub fn past(form: Form, map: Map, heap: &[u8], primary: &[u8], a: Address, l: Located) -> Address
    requires { (good_map (under form map) ≡ true) × (length heap.now ≡ map.heap_size) × (length primary.now ≡ map.stack_size) × Lies map a.0 l }
    ensures { Skips (under form map) heap.now primary.now a.0 l result.0 }
{
    match l {
        Located::Heap(p) => map::to_address(
            heap_climb::past_segments(form, heap, p),
            Address(map.heap_start),
        ),
        Located::Stack(p) => map::to_address(
            monitor_climb_bytes::past_bytes(primary, p),
            Address(map.stack_start),
        ),
        Located::Outside => start_above(map, a),
    }
}
