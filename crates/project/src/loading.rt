// The load order of the units of a store.
ghost use Rattle.std.specs.Prelude.{◌≡◌, ℕ, ◌<◌, ◌||◌, length};
ghost use Rattle.order.specs.Answer.{Means, arranged};
ghost use Rattle.order.specs.Seen.{bit};
ghost use Rattle.store.specs.Units.{units as units_of};
ghost use Rattle.project.specs.Loading.{stored_view, load_order};
ghost use Rattle.project.specs.Naming.{is_seat, is_none, first_or};

use super::fault::{Fault, Question};
use super::stored::Stored;
use cores::interface::Core;
use order::{Order, add_mark, arrange};
use store::layout::STORE_BYTES;

// What the heads of a text name: bit j is set where one names the unit at place j, and the first that names none is told.
#[derive(Clone, Copy, PartialEq, Eq, Debug, Default)]
pub struct Naming {
    pub needs: u16,
    pub missing: Option<usize>,
}

impl Naming {
    // What is known of the heads up to one, once what that one names was found. Constant time.
    pub(crate) fn noted(self, named: Option<usize>, place: usize) -> Naming
        ensures needs { (j : ℕ) → j < 16 → bit result.needs j ≡ (bit self.needs j || is_seat named j) }
        ensures missing { result.missing ≡ first_or self.missing (is_none named) place }
    {
        match named {
            Some(seat) => Naming {
                needs: add_mark(self.needs, seat),
                ..self
            },
            None => Naming {
                missing: self.missing.or(Some(place)),
                ..self
            },
        }
    }
}

// The load order of the units of a store, by their places among the units; or 10 where a unit names one that is not stored, else 11
// where one reaches itself. A pass over each text, and some thousand steps for the order.
pub fn load_order<C: Core>(
    core: &C,
    store: &[u8],
    scratch: &mut [u32],
) -> Result<Order, Fault<C::Cause>>
    ensures answer { result ≡ load_order C.Core.words store.now (length scratch.old) }
    ensures law { Means (stored_view C.Core.words (units_of store.now)) (arranged (stored_view C.Core.words (units_of store.now))) }
{
    if store.len() != STORE_BYTES {
        return Err(Question::Lengths.into());
    }
    let Some(scratch) = scratch.as_mut_array() else {
        return Err(Question::Lengths.into());
    };
    let units = Stored::read(store);
    let seen = units.all_seen(core, scratch);
    arrange(&seen[..units.len()]).map_err(|e| units.order_fault(core, scratch, e))
}
