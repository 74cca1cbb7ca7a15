//! The next unit to load.

ghost use Rattle.std.specs.Prelude.{◌≡◌, ◌/◌, ◌^◌, ◌<◌, not, length, IfSome, Decides, ◌==◌};
ghost use Rattle.std.specs.Option.{option_map};
ghost use Rattle.order.specs.Compare.{tuple};
ghost use Rattle.order.specs.Picking.{Picked, Ready, next};
ghost use Rattle.order.specs.Picking.{ready as is_ready};
ghost use Rattle.order.specs.Seen.{bit, seen};

use crate::compare::before;
use crate::marks::{has, within};
use crate::{MOST, Unit};

/// Whether a place from `count` on is marked. One step.
fn beyond(marks: u16, count: usize) -> bool
    ensures { result ≡ not (marks / 2 ^ count == 0) }
{
    count < MOST && marks >> count != 0
}

// A slice and a place are two parameters, as of the public `ready`: a type of both would be taken apart in each.
/// Whether the unit at a place names a unit that is not stored. A few steps.
pub(crate) fn lacks(units: &[Unit<'_>], i: usize) -> bool
    ensures { result ≡ (seen units.now).lacks i }
{
    let unit = units.get(i).copied().unwrap_or_default();
    unit.misses || beyond(unit.needs, units.len())
}

/// Whether the unit at a place is ready: there is one, it is not placed, and all units that it names are placed.
/// A few steps.
pub fn ready(units: &[Unit<'_>], placed: u16, i: usize) -> bool
    ensures value { result ≡ is_ready (seen units.now) (bit placed) i }
    ensures law { Decides result (Ready (seen units.now) (bit placed) i) }
{
    let unit = units.get(i).copied().unwrap_or_default();
    i < units.len() && !has(placed, i) && !lacks(units, i) && within(unit.needs, placed)
}

/// The rank and the place of the next unit: of the units that are ready, the least by rank and then by name.
/// A few steps for each unit, and for each ready one a step for each byte of its name.
pub fn pick(units: &[Unit<'_>], placed: u16) -> Option<(u8, usize)>
    ensures value { result ≡ option_map (tuple (seen units.now)) (next (seen units.now) (bit placed)) }
    ensures law { Picked (seen units.now) (bit placed) result }
    ensures within { IfSome result (λ t. t.1 < length units.now) }
{
    units
        .iter()
        .enumerate()
        .filter(|&(i, _)| ready(units, placed, i))
        .map(|(i, unit)| (unit.rank, i))
        .reduce(|best, found| if before(units, found, best) {
            found
        } else {
            best
        })
}
