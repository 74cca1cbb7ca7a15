// The slots of a store, where the texts stand.
ghost use Rattle.std.specs.Prelude.{◌≡◌, ◌≤◌};
ghost use Rattle.store.specs.Units.{slot as slot_of};

use super::entry::LONGEST_TEXT;

// The bytes before the first text.
const FIRST_SLOT: usize = 1536;

// The place from which the text of the k-th unit stands.
pub(crate) fn slot(k: usize) -> usize
    requires { k ≤ 16 }
    ensures { result ≡ slot_of k }
{
    FIRST_SLOT + LONGEST_TEXT * k
}
