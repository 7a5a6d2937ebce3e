// The check of a record in the form with origins: it only reads.
#![tactic(auto)]

ghost use Rattle.std.specs.Prelude.{◌≡◌, ◌≤◌, Ok, IfOk};
ghost use Rattle.map.specs.FormMap.{player};
ghost use Rattle.plain.specs.Call as calls;
ghost use Rattle.map.specs.Locating.{Lies};
ghost use Rattle.monitor_base.specs.Refusals.{Decides, told_of};
ghost use Rattle.monitor_write_laws.specs.Checks as checks;
ghost use Rattle.origins_list.specs.Call.{plain};
ghost use Rattle.origins_base.specs.Answers.{lent};
ghost use Rattle.origins_laws.specs.CellsAt.{CellAt};
ghost use Rattle.origins_write_laws.specs.Checks.{number_of, decided_by};

use map::{Address, Form, Located, Map};
use monitor_base::Refusal;
use origins_base::guard::{cells_fit, unfit};
use plain::Beginning;

// The check where the cells fit, by that of the plain form. 5 of the base stands between 5 and 6 of the plain form, 12 comes last.
fn decided(
    checked: Result<Located, Refusal>,
    base: Address,
    counter: u64,
) -> Result<Located, Refusal>
    ensures { Decides (decided_by (told_of checked) base.0 counter) result × IfOk result (λ place. checked ≡ Ok place) }
{
    if base.0 % 4 != 0 {
        return match checked {
            Ok(_) | Err(Refusal::Occupied) => Err(Refusal::Misaligned),
            Err(refused) => Err(refused),
        };
    }
    let place = checked?;
    if (1 <= counter) & (counter <= 4294967295) {
        Ok(place)
    } else {
        Err(Refusal::NoOrigin)
    }
}

// Where nothing is refused, the block can be stamped at the place, its origin fits the cell there, and the counter is that origin.
pub fn check(
    map: Map,
    heap: &[u8],
    primary: &[u8],
    secondary: &[u8],
    heap_cells: &[u8],
    stack_cells: &[u8],
    counter: u64,
    base: Address,
    len: u32,
    how: Beginning,
) -> Result<Located, Refusal>
    ensures { Decides (number_of map (plain (calls.begin how base.0 len))
        (lent heap.now primary.now secondary.now heap_cells.now stack_cells.now counter)) result
        × IfOk result (λ place. (checks.number_of (player map) (calls.begin how base.0 len) (heap.now, (primary.now, secondary.now)) ≡ 0)
        × Lies map base.0 place
        × checks.Stampable 8 place len (heap.now, (primary.now, secondary.now))
        × CellAt place (heap_cells.now, stack_cells.now) × (counter ≤ 4294967295)) }
{
    let checked = monitor_record_check::check(
        Form::Player,
        map,
        heap,
        primary,
        secondary,
        base,
        len,
        how,
    );
    if !cells_fit(map, heap_cells.len(), stack_cells.len()) {
        return Err(unfit(map));
    }
    decided(checked, base, counter)
}
