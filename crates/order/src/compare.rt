//! Which of two units comes first: by rank, then by name.

ghost use Rattle.std.specs.Prelude.{◌≡◌, Decides};
ghost use Rattle.std.specs.Ordering.{MatchOrdering};
ghost use Rattle.order.specs.Compare.{NameLess, TupleFirst, compared, by_name, tuple_before};
ghost use Rattle.order.specs.Seen.{seen};

use crate::Unit;
use std::cmp::Ordering;

// A named function though it is `cmp`: its contract is the law of the order by names.
/// Compares two names byte by byte; a name comes before any longer one that it begins.
/// A step for each byte of the shorter one.
pub fn compare_names(a: &[u8], b: &[u8]) -> Ordering
    ensures value { result ≡ compared a.now b.now }
    ensures law { MatchOrdering result (NameLess a.now b.now) (a.now ≡ b.now) (NameLess b.now a.now) }
{
    a.cmp(b)
}

/// The name of the unit at a place, empty where there is none.
fn name_at<'a>(units: &[Unit<'a>], place: usize) -> &'a [u8]
    ensures { result.now ≡ (seen units.now).name place }
{
    units.get(place).map_or(&[], |unit| unit.name)
}

/// Whether the unit at i comes before the one at j by name; units of one name go by their places.
pub(crate) fn name_before(units: &[Unit<'_>], i: usize, j: usize) -> bool
    ensures { result ≡ by_name (seen units.now) i j }
{
    compare_names(name_at(units, i), name_at(units, j))
        .then(i.cmp(&j))
        .is_lt()
}

// Number by number, as the rule for picking says it; `then_with` tells nothing of a closure that holds a slice.
/// Whether the first of two tuples of rank and place comes before the second: by rank, then by the names of the
/// units at the places, and units of one name by their places. A step for each byte of the shorter name.
pub fn before(units: &[Unit<'_>], a: (u8, usize), b: (u8, usize)) -> bool
    ensures value { result ≡ tuple_before (seen units.now) a b }
    ensures law { Decides result (TupleFirst (seen units.now) a b) }
{
    a.0 < b.0 || (a.0 == b.0 && name_before(units, a.1, b.1))
}
