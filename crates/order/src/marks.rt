//! Sets of places, a bit of a `u16` for each.

ghost use Rattle.std.specs.Prelude.{◌≡◌, ℕ, ◌/◌, ◌^◌, ◌<◌, false, not, ◌&&◌, ◌||◌, ltb, if◌then◌else◌, ◌==◌, nat_lt};
ghost use Rattle.order.specs.Picking.{all_below, also};
ghost use Rattle.order.specs.Seen.{bit};

use crate::MOST;

// A plain `u16`: callers fill `Unit::needs` and hand placed units to `pick`, and set a bit by `add_mark` alone; a type
// of its own would be put on and taken off at each call.

/// Whether a place is marked. One step.
pub(crate) fn has(marks: u16, place: usize) -> bool
    ensures { result ≡ bit marks place }
{
    place < MOST && (marks >> place) & 1 == 1
}

/// The marks with one more place. One step.
pub(crate) fn with(marks: u16, place: usize) -> u16
    requires { place < 16 }
    ensures { (j : ℕ) → bit result j ≡ also (bit marks) place j }
{
    marks | (1 << place)
}

/// Whether each place marked in the first is marked in the second. One step.
pub(crate) fn within(needs: u16, placed: u16) -> bool
    ensures { (n : ℕ) → not (needs / 2 ^ n == 0) ≡ false → result ≡ all_below n (λ j. not (nat_lt j n && bit needs j) || bit placed j) }
{
    needs & placed == needs
}

/// The marks with one more place, or as they were where the place is none of the 16. One step.
pub fn add_mark(marks: u16, place: usize) -> u16
    ensures { (j : ℕ) → bit result j ≡ (if ltb place 16 then also (bit marks) place j else bit marks j) }
{
    if place < MOST {
        with(marks, place)
    } else {
        marks
    }
}
