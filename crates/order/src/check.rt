//! Missing units, and units that reach themselves by naming.

ghost use Rattle.std.specs.Prelude.{◌≡◌, ℕ, ◌<◌, Bool, length, slice_index, slice_index_or};
ghost use Rattle.order.specs.Compare.{by_name};
ghost use Rattle.order.specs.Least.{best};
ghost use Rattle.order.specs.Reaching.{missing as missing_of, cycle as cycle_of};
ghost use Rattle.order.specs.Rows.{joined, Rows};
ghost use Rattle.order.specs.Seen.{bit, seen, nobody};

use crate::Unit;
use crate::compare::name_before;
use crate::few::Few;
use crate::marks::has;
use crate::picking::lacks;
use std::array::from_fn;

/// The least-named unit that passes a test. A test for each unit, and for each that passes a step for each byte of
/// its name.
fn least_named<F: Fn(usize) -> bool>(units: &[Unit<'_>], passes: F) -> Option<usize>
    requires { F.IsAlwaysCallable passes }
    ensures { (mark : ℕ → Bool) → ((i : ℕ) (b : Bool) → F.post passes i b → b ≡ mark i) → result ≡ best mark (by_name (seen units.now)) (length units.now) }
{
    (0..units.len())
        .filter(|&i| passes(i))
        .reduce(|least, i| if name_before(units, i, least) {
            i
        } else {
            least
        })
}

/// The least-named unit that names one that is not stored. A few steps for each unit, and for each such one a step
/// for each byte of its name.
pub(crate) fn missing(units: &[Unit<'_>]) -> Option<usize>
    ensures { result ≡ missing_of (seen units.now) }
{
    least_named(units, |i| lacks(units, i))
}

/// What the unit at a place names, nothing where there is none.
fn needs(units: &[Unit<'_>], i: usize) -> u16
    ensures { result ≡ (slice_index_or units.now i nobody).needs }
{
    units.get(i).copied().unwrap_or_default().needs
}

/// What each unit names. A step for each of 16 places.
fn all_needs(units: &[Unit<'_>]) -> [u16; 16]
    ensures { (i : ℕ) → i < 16 → slice_index result i ≡ (slice_index_or units.now i nobody).needs }
{
    from_fn(|i| needs(units, i))
}

/// What each unit reaches, once each that reaches the unit at `k` reaches all that this one does too. 16 steps.
fn through(mut rows: [u16; 16], k: usize) -> [u16; 16]
    requires { k < 16 }
    ensures { (i j : ℕ) → i < 16 → bit (slice_index result i) j ≡ joined rows k i j }
{
    let onward = rows[k];
    for row in rows.iter_mut() {
        if has(*row, k) {
            *row |= onward;
        }
    }
    rows
}

impl Few<'_> {
    /// What each unit reaches by naming. 16 steps for each unit.
    fn reached(self) -> [u16; 16]
        ensures { Rows (seen self.entry.units.now) (length self.entry.units.now) result }
    {
        (0..self.units.len()).fold(all_needs(self.units), through)
    }

    /// The least-named unit that reaches itself by naming. At most some 300 steps, and for each such unit a step for
    /// each byte of its name.
    pub(crate) fn cycle(self) -> Option<usize>
        ensures { result ≡ cycle_of (seen self.entry.units.now) }
    {
        let rows = self.reached();
        least_named(self.units, |i| rows.get(i).is_some_and(|&row| has(row, i)))
    }
}
