// The calls of the form with origins for C and Rust to link: as in `monitor_c`, with two shadows of cells more; the calls that record take a
// pointer to the counter.
#![tactic(auto)]

ghost use Rattle.std.specs.Prelude.{◌≡◌, ℕ};
ghost use Rattle.types.specs.Call as calls;
ghost use Rattle.types.specs.Origins.{plain, point, copy, live};
ghost use Rattle.origins_base.specs.Answers.{lent};
ghost use Rattle.specification_origins.specs.Origins.{call};
ghost use Rattle.monitor_c_lent.specs.Lent.{map_of, beginning_of};
ghost use Rattle.origins_c_lent.specs.Lent.{left};

use map::Address;
use monitor_c_lent::{beginning, map_of, told};
use origins_c_lent::counted;

#[unsafe(no_mangle)]
pub extern "C" fn block_monitor_origins_clear(
    map: &[u32; 4],
    heap: &mut [u8],
    primary: &mut [u8],
    secondary: &mut [u8],
    heap_cells: &mut [u8],
    stack_cells: &mut [u8],
    fields: &mut [u32; 4],
) -> u32
    ensures { (k : ℕ) → left result fields.new heap.new primary.new secondary.new heap_cells.new stack_cells.new k
        ≡ call (map_of map.now) (plain calls.clear) (lent heap.old primary.old secondary.old heap_cells.old stack_cells.old k) }
{
    told(
        origins::clear(
            map_of(map),
            heap,
            primary,
            secondary,
            heap_cells,
            stack_cells,
        ),
        fields,
    )
}

// Every way to record, by its number: one function that is exported costs less than three that share one.
#[unsafe(no_mangle)]
pub extern "C" fn block_monitor_origins_begin(
    map: &[u32; 4],
    heap: &mut [u8],
    primary: &mut [u8],
    secondary: &mut [u8],
    heap_cells: &mut [u8],
    stack_cells: &mut [u8],
    base: u32,
    length: u32,
    how: u8,
    counter: &mut u64,
    fields: &mut [u32; 4],
) -> u32
    ensures { left result fields.new heap.new primary.new secondary.new heap_cells.new stack_cells.new counter.new
        ≡ call (map_of map.now) (plain (calls.begin (beginning_of how) base length)) (lent heap.old primary.old secondary.old heap_cells.old stack_cells.old counter.old) }
{
    counted(
        origins::begin(
            map_of(map),
            heap,
            primary,
            secondary,
            heap_cells,
            stack_cells,
            *counter,
            Address(base),
            length,
            beginning(how),
        ),
        counter,
        fields,
    )
}

#[unsafe(no_mangle)]
pub extern "C" fn block_monitor_origins_free(
    map: &[u32; 4],
    heap: &mut [u8],
    primary: &[u8],
    secondary: &[u8],
    heap_cells: &mut [u8],
    stack_cells: &[u8],
    base: u32,
    fields: &mut [u32; 4],
) -> u32
    ensures { (k : ℕ) → left result fields.new heap.new primary.now secondary.now heap_cells.new stack_cells.now k
        ≡ call (map_of map.now) (plain (calls.free base)) (lent heap.old primary.now secondary.now heap_cells.old stack_cells.now k) }
{
    told(
        origins::free(
            map_of(map),
            heap,
            primary,
            secondary,
            heap_cells,
            stack_cells,
            Address(base),
        ),
        fields,
    )
}

#[unsafe(no_mangle)]
pub extern "C" fn block_monitor_origins_remove(
    map: &[u32; 4],
    heap: &[u8],
    primary: &mut [u8],
    secondary: &mut [u8],
    heap_cells: &[u8],
    stack_cells: &mut [u8],
    base: u32,
    fields: &mut [u32; 4],
) -> u32
    ensures { (k : ℕ) → left result fields.new heap.now primary.new secondary.new heap_cells.now stack_cells.new k
        ≡ call (map_of map.now) (plain (calls.remove base)) (lent heap.now primary.old secondary.old heap_cells.now stack_cells.old k) }
{
    told(
        origins::remove(
            map_of(map),
            heap,
            primary,
            secondary,
            heap_cells,
            stack_cells,
            Address(base),
        ),
        fields,
    )
}

#[unsafe(no_mangle)]
pub extern "C" fn block_monitor_origins_written(
    map: &[u32; 4],
    heap: &mut [u8],
    primary: &mut [u8],
    secondary: &mut [u8],
    heap_cells: &[u8],
    stack_cells: &[u8],
    address: u32,
    n: u32,
    fields: &mut [u32; 4],
) -> u32
    ensures { (k : ℕ) → left result fields.new heap.new primary.new secondary.new heap_cells.now stack_cells.now k
        ≡ call (map_of map.now) (plain (calls.written address n)) (lent heap.old primary.old secondary.old heap_cells.now stack_cells.now k) }
{
    told(
        origins::written(
            map_of(map),
            heap,
            primary,
            secondary,
            heap_cells,
            stack_cells,
            Address(address),
            n,
        ),
        fields,
    )
}

#[unsafe(no_mangle)]
pub extern "C" fn block_monitor_origins_ask(
    map: &[u32; 4],
    heap: &[u8],
    primary: &[u8],
    secondary: &[u8],
    heap_cells: &[u8],
    stack_cells: &[u8],
    address: u32,
    fields: &mut [u32; 4],
) -> u32
    ensures { (k : ℕ) → left result fields.new heap.now primary.now secondary.now heap_cells.now stack_cells.now k
        ≡ call (map_of map.now) (plain (calls.ask address)) (lent heap.now primary.now secondary.now heap_cells.now stack_cells.now k) }
{
    told(
        origins::ask(
            map_of(map),
            heap,
            primary,
            secondary,
            heap_cells,
            stack_cells,
            Address(address),
        ),
        fields,
    )
}

// Valid, where the bytes are to be written, and valid_read: one function, for the same reason.
#[unsafe(no_mangle)]
pub extern "C" fn block_monitor_origins_access(
    map: &[u32; 4],
    heap: &[u8],
    primary: &[u8],
    secondary: &[u8],
    heap_cells: &[u8],
    stack_cells: &[u8],
    address: u32,
    n: u32,
    from: u32,
    write: bool,
    fields: &mut [u32; 4],
) -> u32
    ensures { (k : ℕ) → left result fields.new heap.now primary.now secondary.now heap_cells.now stack_cells.now k
        ≡ call (map_of map.now) (plain (calls.valid write address n from)) (lent heap.now primary.now secondary.now heap_cells.now stack_cells.now k) }
{
    told(
        origins_c_lent::valid(
            map,
            heap,
            primary,
            secondary,
            heap_cells,
            stack_cells,
            address,
            n,
            from,
            write,
        ),
        fields,
    )
}

#[unsafe(no_mangle)]
pub extern "C" fn block_monitor_origins_initialised(
    map: &[u32; 4],
    heap: &[u8],
    primary: &[u8],
    secondary: &[u8],
    heap_cells: &[u8],
    stack_cells: &[u8],
    address: u32,
    n: u32,
    fields: &mut [u32; 4],
) -> u32
    ensures { (k : ℕ) → left result fields.new heap.now primary.now secondary.now heap_cells.now stack_cells.now k
        ≡ call (map_of map.now) (plain (calls.initialised address n)) (lent heap.now primary.now secondary.now heap_cells.now stack_cells.now k) }
{
    told(
        origins::initialised(
            map_of(map),
            heap,
            primary,
            secondary,
            heap_cells,
            stack_cells,
            Address(address),
            n,
        ),
        fields,
    )
}

#[unsafe(no_mangle)]
pub extern "C" fn block_monitor_origins_next(
    map: &[u32; 4],
    heap: &[u8],
    primary: &[u8],
    secondary: &[u8],
    heap_cells: &[u8],
    stack_cells: &[u8],
    address: u32,
    fields: &mut [u32; 4],
) -> u32
    ensures { (k : ℕ) → left result fields.new heap.now primary.now secondary.now heap_cells.now stack_cells.now k
        ≡ call (map_of map.now) (plain (calls.next address)) (lent heap.now primary.now secondary.now heap_cells.now stack_cells.now k) }
{
    told(
        origins::next(
            map_of(map),
            heap,
            primary,
            secondary,
            heap_cells,
            stack_cells,
            Address(address),
        ),
        fields,
    )
}

#[unsafe(no_mangle)]
pub extern "C" fn block_monitor_origins_audit(
    map: &[u32; 4],
    heap: &[u8],
    primary: &[u8],
    secondary: &[u8],
    heap_cells: &[u8],
    stack_cells: &[u8],
    fields: &mut [u32; 4],
) -> u32
    ensures { (k : ℕ) → left result fields.new heap.now primary.now secondary.now heap_cells.now stack_cells.now k
        ≡ call (map_of map.now) (plain calls.audit) (lent heap.now primary.now secondary.now heap_cells.now stack_cells.now k) }
{
    told(
        origins::audit(
            map_of(map),
            heap,
            primary,
            secondary,
            heap_cells,
            stack_cells,
        ),
        fields,
    )
}

#[unsafe(no_mangle)]
pub extern "C" fn block_monitor_origins_point(
    map: &[u32; 4],
    heap: &[u8],
    primary: &[u8],
    secondary: &[u8],
    heap_cells: &mut [u8],
    stack_cells: &mut [u8],
    cell: u32,
    address: u32,
    fields: &mut [u32; 4],
) -> u32
    ensures { (k : ℕ) → left result fields.new heap.now primary.now secondary.now heap_cells.new stack_cells.new k
        ≡ call (map_of map.now) (point cell address) (lent heap.now primary.now secondary.now heap_cells.old stack_cells.old k) }
{
    told(
        origins_c_lent::point(
            map,
            heap,
            primary,
            secondary,
            heap_cells,
            stack_cells,
            cell,
            address,
        ),
        fields,
    )
}

#[unsafe(no_mangle)]
pub extern "C" fn block_monitor_origins_copy(
    map: &[u32; 4],
    heap: &[u8],
    primary: &[u8],
    secondary: &[u8],
    heap_cells: &mut [u8],
    stack_cells: &mut [u8],
    to: u32,
    from: u32,
    fields: &mut [u32; 4],
) -> u32
    ensures { (k : ℕ) → left result fields.new heap.now primary.now secondary.now heap_cells.new stack_cells.new k
        ≡ call (map_of map.now) (copy to «from») (lent heap.now primary.now secondary.now heap_cells.old stack_cells.old k) }
{
    told(
        origins_c_lent::copy(
            map,
            heap,
            primary,
            secondary,
            heap_cells,
            stack_cells,
            to,
            from,
        ),
        fields,
    )
}

#[unsafe(no_mangle)]
pub extern "C" fn block_monitor_origins_live(
    map: &[u32; 4],
    heap: &[u8],
    primary: &[u8],
    secondary: &[u8],
    heap_cells: &[u8],
    stack_cells: &[u8],
    cell: u32,
    address: u32,
    fields: &mut [u32; 4],
) -> u32
    ensures { (k : ℕ) → left result fields.new heap.now primary.now secondary.now heap_cells.now stack_cells.now k
        ≡ call (map_of map.now) (live cell address) (lent heap.now primary.now secondary.now heap_cells.now stack_cells.now k) }
{
    told(
        origins_c_lent::live(
            map,
            heap,
            primary,
            secondary,
            heap_cells,
            stack_cells,
            cell,
            address,
        ),
        fields,
    )
}
