//! The load order of units: of the units whose named units are all placed, the next is the one of least rank,
//! then of least name.

#![tactic(auto)]

mod check;
mod compare;
mod few;
mod marks;
mod picking;
#[cfg(test)]
mod tests;

ghost use Rattle.std.specs.Prelude.{◌≡◌, ◌<◌, ◌≤◌, [], ◌∷◌, ◌++◌, length};
ghost use Rattle.order.specs.Answer.{arranged, question, Fits, Means};
ghost use Rattle.order.specs.Law.{ExistsExactly};
ghost use Rattle.order.specs.Picking.{load_order};
ghost use Rattle.order.specs.Reaching.{missing as missing_of, cycle as cycle_of};
ghost use Rattle.order.specs.Seen.{seen};

use check::missing;
pub use compare::{before, compare_names};
use few::Few;
pub use marks::add_mark;
use marks::with;
pub use picking::{pick, ready};
use std::marker::Model;

// Said here and in the store, as its `MOST_UNITS`: here it is how many bits a `u16` has, and neither crate needs the
// other.
/// Units at most: one bit of a `u16` for each.
pub const MOST: usize = 16;

/// A unit as the load order sees it. Units go by their places in a slice, from 0.
#[derive(Clone, Copy, PartialEq, Eq, Debug, Default)]
pub struct Unit<'a> {
    pub rank: u8,
    pub name: &'a [u8],
    /// Bit j is set where the unit names the one at place j, which may be itself.
    pub needs: u16,
    /// Whether it names a unit that is not stored. A bit at a place where no unit stands says so too.
    pub misses: bool,
}

// The buffer and the length stand in this type alone: an `ArrayVec` is not `Copy`, as a load order is.
/// A load order: the places of at most 16 units, in the order in which they load.
#[derive(Clone, Copy, PartialEq, Eq, Debug)]
pub struct Order {
    places: [u8; 16],
    len: usize,
}

impl Model for Order {
    ghost use Rattle.std.specs.Prelude.{◌≡◌, ℕ, ◌-◌, ◌≤◌, List, ◌++◌, length, take, drop, replicate};
    ghost use Rattle.std.proofs.Common.{sym, ap, ◌∙◌, arith, take-append-drop, length-take-le};

    ghost Value = { List ℕ };

    ghost view = { λ o. take o.len o.places };

    ghost invariant = { λ o. (o.len ≤ 16) × (length o.places ≡ 16) × (drop o.len o.places ≡ replicate (16 - o.len) 0) };

    ghost inverse = { λ ps. record { places = ps ++ replicate (16 - length ps) 0; len = length ps } };

    ghost inverse_ok = { λ o h i. record {
      places = (ap (λ n. take o.len o.places ++ replicate (16 - n) 0) (length-take-le o.len o.places (omega (arith, h.0, h.1)))
          ∙ ap (λ l. take o.len o.places ++ l) (sym h.2)
          ∙ take-append-drop o.len o.places) i;
      len = length-take-le o.len o.places (omega (arith, h.0, h.1)) i;
    } };
}

impl Order {
    /// The order of no units. One step.
    pub(crate) fn new() -> Order
        ensures { result ≡ [] }
    {
        Order {
            places: [0; MOST],
            len: 0,
        }
    }

    /// Puts one more place behind the others. One step.
    pub(crate) fn push(&mut self, place: u8)
        requires { length self.old < 16 }
        ensures { self.new ≡ self.old ++ place ∷ [] }
    {
        self.places[self.len] = place;
        self.len += 1;
    }

    /// The places, at most 16, first those that load first. One step.
    pub fn as_slice(&self) -> &[u8]
        ensures value { result.now ≡ self.now }
        ensures few { length result.now ≤ 16 }
    {
        &self.places[..self.len]
    }
}

/// Why there is no load order.
#[derive(Clone, Copy, PartialEq, Eq, Debug)]
pub enum Fault {
    /// There are more than 16 units.
    TooMany,
    /// The place of the least-named unit that names one that is not stored.
    Missing(usize),
    /// The place of the least-named unit that reaches itself by naming.
    Cycle(usize),
}

impl Fault {
    /// The number of the question that such units answer with no. More than 16 units have none: a store never holds
    /// them. One step.
    // The numbers are the rule's, case by case; a conversion would say no more.
    pub fn number(self) -> Option<u8>
        ensures { result ≡ question self }
    {
        match self {
            Fault::TooMany => None,
            Fault::Missing(_) => Some(10),
            Fault::Cycle(_) => Some(11),
        }
    }
}

impl Few<'_> {
    /// The units in the order in which they are picked, until none is ready. For each unit a pick.
    fn in_turn(self) -> Order
        ensures { result ≡ load_order (seen self.entry.units.now) }
    {
        let mut order = Order::new();
        let mut placed = 0u16;
        while let Some((_, place)) = pick(self.units, placed) {
            order.push(place as u8);
            placed = with(placed, place);
        }
        order
    }
}

/// The load order of at most 16 units, or why there is none: missing units are asked before cycles.
/// Some thousand steps for 16 units with names of 16 bytes.
pub fn arrange(units: &[Unit<'_>]) -> Result<Order, Fault>
    ensures answer { result ≡ arranged (seen units.now) }
    ensures law { Means (seen units.now) result }
    ensures exists { ExistsExactly }
    ensures fits { Fits (length units.now) result }
{
    let few = Few::new(units)?;
    if let Some(i) = missing(units) {
        return Err(Fault::Missing(i));
    }
    if let Some(i) = few.cycle() {
        return Err(Fault::Cycle(i));
    }
    Ok(few.in_turn())
}
