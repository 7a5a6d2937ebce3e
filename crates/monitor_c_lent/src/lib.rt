// What the exported functions of every form share: a map and the answer fields are lent as arrays of four numbers. And the two calls whose arguments could be
// taken for each other.
#![tactic(auto)]

ghost use Rattle.std.specs.Prelude.{◌≡◌, length};
ghost use Rattle.map.specs.FormMap.{under};
ghost use Rattle.plain.specs.Call as plain;
ghost use Rattle.monitor_base.specs.Answers.{answer_of, outcome};
ghost use Rattle.monitor_base.specs.Calls.{call};
ghost use Rattle.monitor_c_lent.specs.Lent.{map_of, beginning_of, answered};

use map::{Address, Form, Map};
use monitor_base::Answer;
use plain::Beginning;

pub fn map_of(map: &[u32; 4]) -> Map
    ensures { result ≡ map_of map.now }
{
    Map {
        heap_start: map[0],
        heap_size: map[1],
        stack_start: map[2],
        stack_size: map[3],
    }
}

// The fields go into the lent array, the number is the result.
pub fn told(r: Answer, fields: &mut [u32]) -> u32
    requires { length fields.old ≡ 4 }
    ensures { answered result fields.new ≡ answer_of r }
{
    fields[0] = r.first;
    fields[1] = r.second;
    fields[2] = r.third;
    fields[3] = r.fourth;
    r.number
}

// 0 for no byte written, 1 for every byte, any other number for a literal.
pub fn beginning(how: u8) -> Beginning
    ensures { result ≡ beginning_of how }
{
    if 1 < how {
        return Beginning::Literal;
    }
    if how == 1 {
        return Beginning::Written;
    }
    Beginning::Unwritten
}

// Whether n bytes from an address on lie in the block of another, and may be written where that is asked.
pub fn valid(
    form: Form,
    map: &[u32; 4],
    heap: &[u8],
    primary: &[u8],
    secondary: &[u8],
    address: u32,
    n: u32,
    from: u32,
    write: bool,
) -> Answer
    ensures { outcome result heap.now primary.now secondary.now
        ≡ call (under form (map_of map.now)) (plain.valid write address n from) (heap.now, (primary.now, secondary.now)) }
{
    monitor_valid::valid(
        form,
        map_of(map),
        heap,
        primary,
        secondary,
        Address(address),
        n,
        Address(from),
        write,
    )
}

// A base for a block of this length, in one of the first `budget` gaps.
pub fn place(
    form: Form,
    map: &[u32; 4],
    heap: &[u8],
    primary: &[u8],
    secondary: &[u8],
    length: u32,
    budget: u32,
) -> Answer
    ensures { outcome result heap.now primary.now secondary.now
        ≡ call (under form (map_of map.now)) (plain.place length budget) (heap.now, (primary.now, secondary.now)) }
{
    monitor_place::place(form, map_of(map), heap, primary, secondary, length, budget)
}
