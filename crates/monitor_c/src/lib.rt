// The calls for C and Rust to link: a map is an array of four numbers, a shadow a pointer and a length, the answer fields go into a lent
// array of four, and the number is returned.
#![tactic(auto)]

ghost use Rattle.std.specs.Prelude.{◌≡◌};
ghost use Rattle.types.specs.Shadows.{shadows};
ghost use Rattle.types.specs.Call as calls;
ghost use Rattle.specification.specs.Heap.{player};
ghost use Rattle.specification.specs.Call.{call};
ghost use Rattle.monitor_c_lent.specs.Lent.{map_of, beginning_of, left};

use map::{Address, Form};
use monitor_c_lent::{beginning, map_of, told};

#[unsafe(no_mangle)]
pub extern "C" fn block_monitor_clear(
    map: &[u32; 4],
    heap: &mut [u8],
    primary: &mut [u8],
    secondary: &mut [u8],
    fields: &mut [u32; 4],
) -> u32
    ensures { left result fields.new heap.new primary.new secondary.new
        ≡ call player (map_of map.now) calls.clear (shadows heap.old primary.old secondary.old) }
{
    told(
        monitor::clear(Form::Player, map_of(map), heap, primary, secondary),
        fields,
    )
}

// Every way to record, told how the block begins: one function that is exported costs less than three that share one.
#[unsafe(no_mangle)]
pub extern "C" fn block_monitor_begin(
    map: &[u32; 4],
    heap: &mut [u8],
    primary: &mut [u8],
    secondary: &mut [u8],
    base: u32,
    length: u32,
    how: u8,
    fields: &mut [u32; 4],
) -> u32
    ensures { left result fields.new heap.new primary.new secondary.new
        ≡ call player (map_of map.now) (calls.begin (beginning_of how) base length) (shadows heap.old primary.old secondary.old) }
{
    told(
        monitor::begin(
            Form::Player,
            map_of(map),
            heap,
            primary,
            secondary,
            Address(base),
            length,
            beginning(how),
        ),
        fields,
    )
}

#[unsafe(no_mangle)]
pub extern "C" fn block_monitor_free(
    map: &[u32; 4],
    heap: &mut [u8],
    primary: &[u8],
    secondary: &[u8],
    base: u32,
    fields: &mut [u32; 4],
) -> u32
    ensures { left result fields.new heap.new primary.now secondary.now
        ≡ call player (map_of map.now) (calls.free base) (shadows heap.old primary.now secondary.now) }
{
    told(
        monitor::free(
            Form::Player,
            map_of(map),
            heap,
            primary,
            secondary,
            Address(base),
        ),
        fields,
    )
}

#[unsafe(no_mangle)]
pub extern "C" fn block_monitor_remove(
    map: &[u32; 4],
    heap: &[u8],
    primary: &mut [u8],
    secondary: &mut [u8],
    base: u32,
    fields: &mut [u32; 4],
) -> u32
    ensures { left result fields.new heap.now primary.new secondary.new
        ≡ call player (map_of map.now) (calls.remove base) (shadows heap.now primary.old secondary.old) }
{
    told(
        monitor::remove(
            Form::Player,
            map_of(map),
            heap,
            primary,
            secondary,
            Address(base),
        ),
        fields,
    )
}

#[unsafe(no_mangle)]
pub extern "C" fn block_monitor_written(
    map: &[u32; 4],
    heap: &mut [u8],
    primary: &mut [u8],
    secondary: &mut [u8],
    address: u32,
    n: u32,
    fields: &mut [u32; 4],
) -> u32
    ensures { left result fields.new heap.new primary.new secondary.new
        ≡ call player (map_of map.now) (calls.written address n) (shadows heap.old primary.old secondary.old) }
{
    told(
        monitor::written(
            Form::Player,
            map_of(map),
            heap,
            primary,
            secondary,
            Address(address),
            n,
        ),
        fields,
    )
}

#[unsafe(no_mangle)]
pub extern "C" fn block_monitor_ask(
    map: &[u32; 4],
    heap: &[u8],
    primary: &[u8],
    secondary: &[u8],
    address: u32,
    fields: &mut [u32; 4],
) -> u32
    ensures { left result fields.new heap.now primary.now secondary.now
        ≡ call player (map_of map.now) (calls.ask address) (shadows heap.now primary.now secondary.now) }
{
    told(
        monitor::ask(
            Form::Player,
            map_of(map),
            heap,
            primary,
            secondary,
            Address(address),
        ),
        fields,
    )
}

// Valid, where the bytes are to be written, and valid_read: one function, for the same reason.
#[unsafe(no_mangle)]
pub extern "C" fn block_monitor_access(
    map: &[u32; 4],
    heap: &[u8],
    primary: &[u8],
    secondary: &[u8],
    address: u32,
    n: u32,
    from: u32,
    write: bool,
    fields: &mut [u32; 4],
) -> u32
    ensures { left result fields.new heap.now primary.now secondary.now
        ≡ call player (map_of map.now) (calls.valid write address n from) (shadows heap.now primary.now secondary.now) }
{
    told(
        monitor_c_lent::valid(
            Form::Player,
            map,
            heap,
            primary,
            secondary,
            address,
            n,
            from,
            write,
        ),
        fields,
    )
}

#[unsafe(no_mangle)]
pub extern "C" fn block_monitor_initialised(
    map: &[u32; 4],
    heap: &[u8],
    primary: &[u8],
    secondary: &[u8],
    address: u32,
    n: u32,
    fields: &mut [u32; 4],
) -> u32
    ensures { left result fields.new heap.now primary.now secondary.now
        ≡ call player (map_of map.now) (calls.initialised address n) (shadows heap.now primary.now secondary.now) }
{
    told(
        monitor::initialised(
            Form::Player,
            map_of(map),
            heap,
            primary,
            secondary,
            Address(address),
            n,
        ),
        fields,
    )
}

#[unsafe(no_mangle)]
pub extern "C" fn block_monitor_next(
    map: &[u32; 4],
    heap: &[u8],
    primary: &[u8],
    secondary: &[u8],
    address: u32,
    fields: &mut [u32; 4],
) -> u32
    ensures { left result fields.new heap.now primary.now secondary.now
        ≡ call player (map_of map.now) (calls.next address) (shadows heap.now primary.now secondary.now) }
{
    told(
        monitor::next(
            Form::Player,
            map_of(map),
            heap,
            primary,
            secondary,
            Address(address),
        ),
        fields,
    )
}

#[unsafe(no_mangle)]
pub extern "C" fn block_monitor_audit(
    map: &[u32; 4],
    heap: &[u8],
    primary: &[u8],
    secondary: &[u8],
    fields: &mut [u32; 4],
) -> u32
    ensures { left result fields.new heap.now primary.now secondary.now
        ≡ call player (map_of map.now) calls.audit (shadows heap.now primary.now secondary.now) }
{
    told(
        monitor::audit(Form::Player, map_of(map), heap, primary, secondary),
        fields,
    )
}

#[unsafe(no_mangle)]
pub extern "C" fn block_monitor_place(
    map: &[u32; 4],
    heap: &[u8],
    primary: &[u8],
    secondary: &[u8],
    length: u32,
    budget: u32,
    fields: &mut [u32; 4],
) -> u32
    ensures { left result fields.new heap.now primary.now secondary.now
        ≡ call player (map_of map.now) (calls.place length budget) (shadows heap.now primary.now secondary.now) }
{
    told(
        monitor_c_lent::place(Form::Player, map, heap, primary, secondary, length, budget),
        fields,
    )
}
