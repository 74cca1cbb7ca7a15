// The calls of an open project. Each asks its questions in order, and the first no refuses and leaves store and book untouched.
ghost use Rattle.std.specs.Prelude.{◌≡◌, length, is_ok, if◌then◌else◌};
ghost use Rattle.store.specs.Units.{units as units_of};
ghost use Rattle.project.specs.Laws.{PutMeans, DropMeans};
ghost use Rattle.project.specs.Runs.{RegisterLaw};
ghost use Rattle.project.specs.Calls.{lengths_answer, accepted, put_outcome, put_store, drop_outcome, drop_store, open_answer, open_store, open_book};

use super::fault::{Fault, Question};
use super::state::Open;
use cores::interface::Core;
use reader::read::read_unit;
use std::convert::Infallible;
use store::layout::{STORE_BYTES, read};
use store::name::name_number;
use store::units::{clear, put as put_text, remove};

// The words of a book.
pub const BOOK_WORDS: usize = 16_384;

// Asks for a store and a book of the right lengths; a refusal tells the unit that the call is about. Constant time.
fn lengths<K>(store: usize, book: usize, unit: Option<u128>) -> Result<(), Fault<K>>
    ensures { result ≡ lengths_answer store book unit }
{
    if store == STORE_BYTES && book == BOOK_WORDS {
        Ok(())
    } else {
        Err(Fault {
            unit,
            question: Question::Lengths,
        })
    }
}

// Opens a project without units: empties the store and makes the book zeros. A step for each word of the book.
pub fn open(store: &mut [u8], book: &mut [u32]) -> Result<Open, Fault<Infallible>>
    ensures answer { result ≡ open_answer (record { units = 0 }) store.old book.old }
    ensures bytes { store.new ≡ open_store store.old book.old }
    ensures words { book.new ≡ open_book store.old book.old }
{
    lengths(store.len(), book.len(), None)?;
    clear(store).map_err(|_| Question::Lengths)?;
    book.fill(0);
    Ok(Open { units: 0 })
}

// Store, book and scratch are lent one by one: a project holds no memory of its own.
impl Open {
    // Counts the units that the store holds. Some steps for each byte of the records.
    fn recount(&mut self, store: &[u8])
        ensures { self.new.units ≡ length (units_of store.now) }
    {
        self.units = read(store).len();
    }

    // Puts a unit, given by its text, in place of the one of its name or behind the last.
    // Linear in the text times what is declared around its names, and in the records.
    pub fn put<C: Core>(
        &mut self,
        core: &C,
        store: &mut [u8],
        book: &[u32],
        scratch: &mut [u32],
        text: &[u8],
    ) -> Result<(), Fault<C::Cause>>
        ensures answer { result ≡ accepted (put_outcome C.Core.words store.old (length book.now) (length scratch.old) text.now) }
        ensures bytes { store.new ≡ put_store C.Core.words store.old (length book.now) (length scratch.old) text.now }
        ensures count { self.new.units ≡ (if is_ok result then length (units_of store.new) else self.old.units) }
        ensures law { PutMeans C.Core.words store.old (length book.now) (length scratch.old) text.now result store.new }
        ensures register { RegisterLaw C.Cause C.Core.words }
    {
        lengths(store.len(), book.len(), None)?;
        let heading = read_unit(core, text, scratch)?;
        let stored = put_text(store, text, heading.place, heading.name.len(), heading.rank);
        stored.map_err(|_| Question::Full)?;
        self.recount(store);
        Ok(())
    }

    // Drops the unit of a name. A step for each byte of one text and of the records.
    pub fn drop(
        &mut self,
        store: &mut [u8],
        book: &[u32],
        name: &[u8],
    ) -> Result<(), Fault<Infallible>>
        ensures answer { result ≡ accepted (drop_outcome store.old (length book.now) name.now) }
        ensures bytes { store.new ≡ drop_store store.old (length book.now) name.now }
        ensures count { self.new.units ≡ (if is_ok result then length (units_of store.new) else self.old.units) }
        ensures law { DropMeans store.old (length book.now) name.now result store.new }
    {
        let unit = name_number(name);
        lengths(store.len(), book.len(), unit)?;
        let missing = Fault {
            unit,
            question: Question::NotStored,
        };
        let number = unit.ok_or(missing)?;
        remove(store, number).map_err(|_| missing)?;
        self.recount(store);
        Ok(())
    }
}
