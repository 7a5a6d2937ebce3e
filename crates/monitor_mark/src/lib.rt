// The effect of a mark of written bytes.
#![tactic(auto)]

ghost use Rattle.std.specs.Prelude.{◌≡◌, List, ℕ};
ghost use Rattle.map.specs.FormMap.{number_size, segment_size};
ghost use Rattle.shadows.specs.Shadows.{Shadows};
ghost use Rattle.monitor_write_laws.specs.Checks.{Markable, marked_at};

use map::{Form, Located};

// Sets the written bits of the n bytes from the place on that the check found. The secondary has no part in them.
pub fn mark(form: Form, heap: &mut [u8], primary: &mut [u8], place: Located, n: u32)
    requires { Markable (segment_size form) place n heap.old primary.old }
    ensures { (S : List ℕ) → ◌≡◌ {A = Shadows} (heap.new, (primary.new, S))
        (marked_at (number_size form) (segment_size form) place n (heap.old, (primary.old, S))) }
{
    match place {
        Located::Heap(p) => heap_mark::mark(form, heap, p, n),
        Located::Stack(p) => stack_mark::mark(primary, p, n),
        Located::Outside => {}
    }
}
