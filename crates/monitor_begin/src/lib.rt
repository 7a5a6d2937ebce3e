// Whether a block may begin in one of the areas: it fits, is aligned, and its place is vacant.
#![tactic(auto)]

ghost use Rattle.std.specs.Prelude.{◌≡◌, ◌%◌, ◌≤◌, ◌<◌, length};
ghost use Rattle.map.specs.FormMap.{number_size, segment_size};
ghost use Rattle.plain.specs.Call as plain;
ghost use Rattle.monitor_base.specs.Refusals.{Decides};
ghost use Rattle.monitor_write_laws.specs.AreaCalls.{on_heap, on_stack};

use map::{Form, Position};
use monitor_base::Refusal;

// In the heap, whose first segment holds no block.
pub fn on_heap(
    form: Form,
    heap: &[u8],
    base: Position,
    end: Position,
    len: u32,
) -> Result<(), Refusal>
    requires le_len { (1 ≤ len) × (end.0 ≡ length heap.now) }
    requires base_in_bounds { (base.0 < length heap.now) × (length heap.now % segment_size form ≡ 0) × (length heap.now ≤ 131072) }
    ensures { Decides (plain.number (on_heap (number_size form) (segment_size form) (plain.record_block base.0 len) heap.now).1) result }
{
    let b = base.0;
    if b < form.segment() {
        return Err(Refusal::Outside);
    }
    if end.0 < b + (len as usize) {
        return Err(Refusal::Outside);
    }
    if !form.whole(b) {
        return Err(Refusal::Misaligned);
    }
    if !heap_place::vacant(form, heap, base, len) {
        return Err(Refusal::Occupied);
    }
    Ok(())
}

// In the stack.
pub fn on_stack(
    primary: &[u8],
    secondary: &[u8],
    base: Position,
    end: Position,
    len: u32,
) -> Result<(), Refusal>
    requires le_len { (1 ≤ len) × (end.0 ≡ length primary.now) }
    requires base_in_bounds { (base.0 < length primary.now) × (length primary.now ≡ length secondary.now) × (length primary.now ≤ 65536) }
    ensures { Decides (plain.number (on_stack (plain.record_block base.0 len) (primary.now, secondary.now)).1) result }
{
    let at = base.0;
    if end.0 < at + (len as usize) {
        return Err(Refusal::Outside);
    }
    if !stack_place::vacant(primary, secondary, base, len) {
        return Err(Refusal::Occupied);
    }
    Ok(())
}
