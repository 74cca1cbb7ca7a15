// How a directory lies in the bytes of a store.
ghost use Rattle.std.specs.Prelude.{◌≡◌, ◌+◌, ◌≤◌, true, length, is_ok, ◌==◌};
ghost use Rattle.store.specs.Numbers.{laid};
ghost use Rattle.store.specs.Layout.{record_at, record_bytes, stored, written};
ghost use Rattle.store.specs.Units.{units, Kept};

use super::bytes::{bytes_at, write_bytes};
use super::directory::{Directory, MOST_UNITS};
use super::edit::is_lawful;
use super::entry::{BLANK, Entry};
use std::error::Error;
use std::fmt;

// The bytes of a store.
pub const STORE_BYTES: usize = 65536;

// The bytes of a record.
pub(crate) const RECORD_BYTES: usize = 22;

// A store has not the bytes of a store.
#[derive(Clone, Copy, PartialEq, Eq, Debug)]
pub struct WrongLength;

// The refusal, in a sentence.
impl fmt::Display for WrongLength {
    ghost use Rattle.std.specs.Prelude.{Some};
    ghost use Rattle.store.specs.Wording.{length_words};

    ghost output = { λ _. Some length_words };

    fn fmt<W: fmt::Write>(&self, f: &mut fmt::Formatter<W>) -> fmt::Result {
        f.write_str("the store has not the bytes of a store")
    }
}

impl Error for WrongLength {}

// The record that stands at a place.
// By place, in reading and in writing: chunks of a store begin behind its first byte, and writing needs the place too.
fn read_entry(store: &[u8], at: usize) -> Entry
    requires { at + 22 ≤ length store.now }
    ensures { result ≡ record_at store.now at }
{
    Entry {
        name: u128::from_be_bytes(bytes_at(store, at)),
        size: store[at + 16],
        place: u16::from_be_bytes(bytes_at(store, at + 17)),
        span: u16::from_be_bytes(bytes_at(store, at + 19)),
        rank: store[at + 21],
    }
}

// Writes a record at a place; every other byte stays.
fn write_entry(store: &mut [u8], at: usize, e: Entry)
    requires { at + 22 ≤ length store.old }
    ensures { store.new ≡ laid at (record_bytes e) store.old }
{
    write_bytes(store, at, &e.name.to_be_bytes());
    store[at + 16] = e.size;
    write_bytes(store, at + 17, &e.place.to_be_bytes());
    write_bytes(store, at + 19, &e.span.to_be_bytes());
    store[at + 21] = e.rank;
}

// The directory of a store; the one without records where the store is unlawful or has another length than a store
// has. Some steps for each byte of at most 16 records.
pub fn read(store: &[u8]) -> Directory
    ensures records { result ≡ stored store.now }
    ensures kept { Kept (units store.now) }
{
    if store.len() != STORE_BYTES {
        return Directory::empty();
    }
    let count = usize::from(store[0]);
    if count > MOST_UNITS {
        return Directory::empty();
    }
    let mut entries = [BLANK; 16];
    for (i, e) in entries[..count].iter_mut().enumerate() {
        *e = read_entry(store, 1 + RECORD_BYTES * i);
    }
    if is_lawful(&entries[..count]) {
        Directory { count, entries }
    } else {
        Directory::empty()
    }
}

// Writes a directory into a store, so that it is what is read from it; a store that has another length than a store
// has is refused, and nothing is written. Some steps for each byte of the records.
pub fn write(directory: Directory, store: &mut [u8]) -> Result<(), WrongLength>
    ensures answer { is_ok result ≡ (length store.old == 65536) }
    ensures bytes { store.new ≡ written directory store.old }
    ensures back { is_ok result ≡ true → stored store.new ≡ directory }
{
    if store.len() != STORE_BYTES {
        return Err(WrongLength);
    }
    store[0] = directory.count as u8;
    for (i, e) in directory.records().iter().enumerate() {
        write_entry(store, 1 + RECORD_BYTES * i, *e);
    }
    Ok(())
}
