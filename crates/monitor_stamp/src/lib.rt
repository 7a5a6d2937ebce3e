// The effect of a record.
#![tactic(auto)]

ghost use Rattle.std.specs.Prelude.{◌≡◌};
ghost use Rattle.map.specs.FormMap.{number_size, segment_size};
ghost use Rattle.shadows.specs.Shadows.{Shadows};
ghost use Rattle.monitor_write_laws.specs.Checks.{Stampable, stamped_at};

use map::{Form, Located};
use plain::Beginning;

// The block joins at the place that the check found, as it begins.
pub fn stamp(
    form: Form,
    heap: &mut [u8],
    primary: &mut [u8],
    secondary: &mut [u8],
    place: Located,
    len: u32,
    how: Beginning,
)
    requires { Stampable (segment_size form) place len (heap.old, (primary.old, secondary.old)) }
    ensures { ◌≡◌ {A = Shadows} (heap.new, (primary.new, secondary.new))
        (stamped_at (number_size form) (segment_size form) place how len (heap.old, (primary.old, secondary.old))) }
{
    match place {
        Located::Heap(p) => heap_stamp::stamp(form, heap, p, len, how),
        Located::Stack(p) => stack_stamp::stamp(primary, secondary, p, len, how),
        Located::Outside => {}
    }
}
