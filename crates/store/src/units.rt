// The units of a store: reading, putting and removing them.
ghost use Rattle.std.specs.Prelude.{◌≡◌, ◌≤◌, true, [], length, slice_index_or, is_ok, MatchOption, if◌then◌else◌, ◌==◌};
ghost use Rattle.store.specs.declared.units.Refusal.TheVariants.{StoreLength};
ghost use Rattle.store.specs.Entries.{blank};
ghost use Rattle.store.specs.Layout.{stored, written};
ghost use Rattle.store.specs.Units.{units as units_of, put_in, taken_out, Replaced, Removed, TextOf, NameOf};
ghost use Rattle.store.specs.Calls.{name_in, unit_for, put_answer, store_after_put, remove_answer, store_after_remove};

use super::bytes::{move_bytes, write_bytes};
use super::directory::Directory;
use super::entry::{Entry, LONGEST_TEXT};
use super::layout::{STORE_BYTES, WrongLength, read, write};
use super::name::name_number;
use super::texts::slot;
use std::error::Error;
use std::fmt;

// Why a store was left as it was.
#[derive(Clone, Copy, PartialEq, Eq, Debug)]
pub enum Refusal {
    // The store has not the bytes of a store.
    StoreLength,
    // The text has too many bytes.
    TextLength,
    // No name stands at the place told.
    NoName,
    // 16 other units are stored.
    Full,
    // No unit of that name is stored.
    Missing,
}

// Why a store was left as it was, in a sentence.
impl fmt::Display for Refusal {
    ghost use Rattle.std.specs.Prelude.{Some};
    ghost use Rattle.store.specs.Wording.{refusal_words};

    ghost output = { λ r. Some (refusal_words r) };

    fn fmt<W: fmt::Write>(&self, f: &mut fmt::Formatter<W>) -> fmt::Result {
        f.write_str(match self {
            Refusal::StoreLength => return WrongLength.fmt(f),
            Refusal::TextLength => "the text has too many bytes",
            Refusal::NoName => "no name stands at the place told",
            Refusal::Full => "16 other units are stored",
            Refusal::Missing => "no unit of that name is stored",
        })
    }
}

impl Error for Refusal {}

impl From<WrongLength> for Refusal {
    ghost from_gives = { λ _ r. r ≡ StoreLength };

    fn from(_: WrongLength) -> Refusal {
        Refusal::StoreLength
    }
}

// The number of the name that stands in a text at a place, `size` bytes long; None where none stands there. At most
// 16 steps.
pub fn name_within(text: &[u8], place: usize, size: usize) -> Option<u128>
    ensures { result ≡ name_in text.now place size }
{
    name_number(text.get(place..place.checked_add(size)?)?)
}

// Empties a store of 65,536 bytes; at any other length it is refused, and nothing is written. Constant time.
pub fn clear(store: &mut [u8]) -> Result<(), WrongLength>
    ensures answer { is_ok result ≡ (length store.old == 65536) }
    ensures bytes { store.new ≡ written [] store.old }
    ensures law { units_of store.new ≡ [] }
{
    write(Directory::empty(), store)
}

// Puts a unit into a store: in place of the one of its name, or behind the last. Answers its place among the units.
// A step for each byte of the text and of the records.
// The place and size of the name stay two numbers: besides `name_within` nothing takes them together.
pub fn put(
    store: &mut [u8],
    text: &[u8],
    place: usize,
    size: usize,
    rank: u8,
) -> Result<usize, Refusal>
    ensures answer { result ≡ put_answer store.old text.now place size }
    ensures bytes { store.new ≡ store_after_put store.old text.now place size rank }
    ensures law { units_of store.new ≡ (if is_ok result then put_in (unit_for text.now place size rank) (units_of store.old) else units_of store.old) }
    ensures replaced { is_ok result ≡ true → Replaced (unit_for text.now place size rank) (units_of store.old) (units_of store.new) }
{
    // The length is asked again in `write`, which may be called alone; over an array the goals of the refusals stay open.
    if store.len() != STORE_BYTES {
        return Err(Refusal::StoreLength);
    }
    if text.len() > LONGEST_TEXT {
        return Err(Refusal::TextLength);
    }
    let Some(name) = name_within(text, place, size) else {
        return Err(Refusal::NoName);
    };
    let e = Entry {
        name,
        size: size as u8,
        place: place as u16,
        span: text.len() as u16,
        rank,
    };
    let Some((directory, k)) = read(store).with(e) else {
        return Err(Refusal::Full);
    };
    write_bytes(store, slot(k), text);
    write(directory, store)?;
    Ok(k)
}

// Removes the unit of a name from a store; the last unit takes its place. Answers the place that it had. A step for
// each byte of the last text and of the records.
pub fn remove(store: &mut [u8], name: u128) -> Result<usize, Refusal>
    ensures answer { result ≡ remove_answer store.old name }
    ensures bytes { store.new ≡ store_after_remove store.old name }
    ensures law { units_of store.new ≡ (if is_ok result then taken_out name (units_of store.old) else units_of store.old) }
    ensures removed { is_ok result ≡ true → Removed name (units_of store.old) (units_of store.new) }
{
    // The length is asked again in `write`, which may be called alone; over an array the goals of the refusals stay open.
    if store.len() != STORE_BYTES {
        return Err(Refusal::StoreLength);
    }
    let directory = read(store);
    let Some((rest, k)) = directory.without(name) else {
        return Err(Refusal::Missing);
    };
    let last = directory.len() - 1;
    let span = usize::from(directory.records()[last].span);
    move_bytes(store, slot(last), slot(k), span);
    write(rest, store)?;
    Ok(k)
}

// The record of the k-th unit, its text, as the part of the store that holds it, and the place of that part. Some
// steps for each byte of the records.
fn unit_at(store: &[u8], k: usize) -> Option<(Entry, &[u8], usize)>
    ensures { MatchOption result (length (units_of store.now) ≤ k) (λ p. (p.0 ≡ slice_index_or (stored store.now) k blank) × TextOf store.now k (Some (p.1, p.2))) }
{
    let e = read(store).entry(k)?;
    let at = slot(k);
    Some((e, &store[at..at + usize::from(e.span)], at))
}

// The text of the k-th unit, as the part of the store that holds it, and the place of that part. Some steps for each
// byte of the records.
pub fn text_of(store: &[u8], k: usize) -> Option<(&[u8], usize)>
    ensures { TextOf store.now k result }
{
    let (_, text, at) = unit_at(store, k)?;
    Some((text, at))
}

// The name of the k-th unit, as the part of the store that holds it, and the place of that part. Some steps for each
// byte of the records.
pub fn name_of(store: &[u8], k: usize) -> Option<(&[u8], usize)>
    ensures { NameOf store.now k result }
{
    let (e, text, at) = unit_at(store, k)?;
    let place = usize::from(e.place);
    Some((&text[place..place + usize::from(e.size)], at + place))
}
