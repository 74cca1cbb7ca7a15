//! A bound on the number of units.

ghost use Rattle.std.specs.Prelude.{◌≤◌, length};

use crate::{Fault, MOST, Unit};

/// Units, of which there are at most 16.
#[derive(Clone, Copy, PartialEq, Eq, Debug)]
pub(crate) struct Few<'a> {
    pub(crate) units: &'a [Unit<'a>],
    ghost few: { length units.now ≤ 16 },
}

impl<'a> Few<'a> {
    ghost use Rattle.std.specs.Prelude.{◌≡◌, ◌<◌, MatchResult};

    /// Asks for at most 16 units. One step.
    pub(crate) fn new(units: &'a [Unit<'a>]) -> Result<Few<'a>, Fault>
        ensures { MatchResult result (λ few. few.units ≡ units.entry) (λ e. (e ≡ Fault.TooMany) × (16 < length units.entry.now)) }
    {
        if units.len() > MOST {
            Err(Fault::TooMany)
        } else {
            Ok(Few { units })
        }
    }
}
