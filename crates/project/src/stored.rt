// The units of a lent store by their places, and what they name. The directory is kept; `text` and `name` ask the store, which reads it anew.
ghost use Rattle.std.specs.Prelude.{◌≡◌, ℕ, ◌<◌, Some, length, slice_index_or};
ghost use Rattle.order.specs.Seen.{nobody};
ghost use Rattle.store.specs.Entries.{blank, found};
ghost use Rattle.store.specs.Layout.{stored};
ghost use Rattle.store.specs.Units.{units as units_of};
ghost use Rattle.project.specs.Faults.{about};
ghost use Rattle.project.specs.Loading.{head_number, heads_of, unit_at, name_bytes, order_fault};
ghost use Rattle.project.specs.Naming.{seat_of, NamingOf, UnitSeen};

use super::fault::{Fault, Question};
use super::loading::Naming;
use cores::interface::Core;
use order::{Fault as Unarranged, MOST, Unit};
use reader::read::{SCRATCH_WORDS, Start, head_name, heads_of};
use std::array;
use store::directory::Directory;
use store::entry::{BLANK, Entry};
use store::layout::read;
use store::name::name_number;
use store::units::{name_of, text_of};

// A store and its directory. Core and scratch are lent to each call beside it: the rule for lent memory.
#[derive(Clone, Copy, PartialEq, Eq, Debug)]
pub(crate) struct Stored<'a> {
    store: &'a [u8],
    directory: Directory,
    ghost same: { directory ≡ stored store.now },
}

impl<'a> Stored<'a> {
    // Reads the directory of a store. Some steps for each byte of the records.
    pub(crate) fn read(store: &'a [u8]) -> Stored<'a>
        ensures { result.store.now ≡ store.now }
    {
        Stored {
            store,
            directory: read(store),
        }
    }

    // How many units there are. Constant time.
    pub(crate) fn len(&self) -> usize
        ensures { result ≡ length (stored self.now.store.now) }
    {
        self.directory.len()
    }

    // The place of the unit of this name. At most 16 steps.
    fn find(&self, name: u128) -> Option<usize>
        ensures { result ≡ found name (stored self.now.store.now) }
    {
        self.directory.find(name)
    }

    // The record of the unit at a place, blank where there is none. Constant time.
    fn entry(&self, i: usize) -> Entry
        ensures { result ≡ slice_index_or (stored self.now.store.now) i blank }
    {
        self.directory.entry(i).unwrap_or(BLANK)
    }

    // The text of the unit at a place, empty where there is none. Some steps for each byte of the records.
    fn text(&self, i: usize) -> &'a [u8]
        ensures { result.now ≡ (unit_at (units_of self.now.store.now) i).text }
    {
        text_of(self.store, i).map_or(&[], |(text, _)| text)
    }

    // The name of the unit at a place, empty where there is none. Some steps for each byte of the records.
    fn name(&self, i: usize) -> &'a [u8]
        ensures { result.now ≡ name_bytes (unit_at (units_of self.now.store.now) i) }
    {
        name_of(self.store, i).map_or(&[], |(name, _)| name)
    }

    // The refusal of a question about the unit at a place. Constant time.
    fn about<K>(&self, i: usize, question: Question<K>) -> Fault<K>
        ensures { result ≡ about (Some (unit_at (units_of self.now.store.now) i).name) question }
    {
        Fault {
            unit: Some(self.entry(i).name),
            question,
        }
    }

    // The place of the unit that the head at a place names. Linear in the text from there on.
    fn named_at(&self, text: &[u8], place: usize) -> Option<usize>
        ensures { result ≡ seat_of (stored self.now.store.now) (head_number text.now place) }
    {
        let name = head_name(text, place)?;
        self.find(name_number(name)?)
    }

    // What these heads of a text name. A look into the directory for each.
    fn heads_named(&self, text: &[u8], heads: &[u32]) -> Naming
        ensures { NamingOf (stored self.now.store.now) text.now heads.now result }
    {
        let mut found = Naming::default();
        for head in heads {
            let place = *head as usize;
            found = found.noted(self.named_at(text, place), place);
        }
        found
    }

    // What the text of the unit at a place names; a text that is no unit names nothing. Linear in the text times what is declared
    // around its names, with a look into the directory for each head.
    fn named<C: Core>(&self, core: &C, scratch: &mut [u32; SCRATCH_WORDS], i: usize) -> Naming
        ensures { NamingOf (stored self.now.store.now) (unit_at (units_of self.now.store.now) i).text (heads_of C.Core.words (unit_at (units_of self.now.store.now) i).text) result }
    {
        let text = self.text(i);
        let heads = heads_of(core, text, scratch, Start::Unit).unwrap_or(&[]);
        self.heads_named(text, heads)
    }

    // The unit at a place, as the load order sees it; an empty one, and nothing is read, where none stands. Linear in its text
    // times what is declared around its names.
    fn seen<C: Core>(&self, core: &C, scratch: &mut [u32; SCRATCH_WORDS], i: usize) -> Unit<'a>
        ensures { i < length (units_of self.now.store.now) → UnitSeen C.Core.words (units_of self.now.store.now) i result }
    {
        if i >= self.len() {
            return Unit::default();
        }
        let found = self.named(core, scratch, i);
        Unit {
            rank: self.entry(i).rank,
            name: self.name(i),
            needs: found.needs,
            misses: found.missing.is_some(),
        }
    }

    // All units, as the load order sees them, with empty ones behind them. A pass over each text.
    pub(crate) fn all_seen<C: Core>(
        &self,
        core: &C,
        scratch: &mut [u32; SCRATCH_WORDS],
    ) -> [Unit<'a>; MOST]
        ensures { (i : ℕ) → i < length (units_of self.now.store.now) → UnitSeen C.Core.words (units_of self.now.store.now) i (slice_index_or result i nobody) }
    {
        array::from_fn(|i| self.seen(core, scratch, i))
    }

    // The fault of units that have no load order: 10 with the first head that names no unit, 11 without a place. A pass over one text.
    pub(crate) fn order_fault<C: Core>(
        &self,
        core: &C,
        scratch: &mut [u32; SCRATCH_WORDS],
        e: Unarranged,
    ) -> Fault<C::Cause>
        ensures { result ≡ order_fault C.Core.words (units_of self.now.store.now) e }
    {
        match e {
            Unarranged::TooMany => Question::Lengths.into(),
            Unarranged::Missing(i) => {
                let found = self.named(core, scratch, i);
                self.about(i, Question::UnitMissing(found.missing.unwrap_or(0)))
            }
            Unarranged::Cycle(i) => self.about(i, Question::Circle),
        }
    }
}
