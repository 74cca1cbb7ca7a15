// Scopes in lent words: a row of entries of four words, each with the number of the entry around it.
// By number: many scopes share the entries around them, and without a heap there are no shared nodes.
// Word by word: the definitions take a row as words, however many there are.
ghost use Rattle.std.specs.Prelude.{◌≡◌, ◌+◌, ◌*◌, ◌^◌, ◌<◌, ◌≤◌, length, slice_index};
ghost use Rattle.reader.specs.Firsts.{EnteredRow};
ghost use Rattle.reader.specs.Frames.{four_at};
ghost use Rattle.reader.specs.Scopes.{is_declared, seek, is_component, is_sought};
ghost use Rattle.reader.specs.Rows.{binder_number, part_of, entry_at, parent_at, scope_of, is_nowhere, binding_of, entries_of, Entered};

use super::scope::{Binder, Sort};
use std::marker::Model;

// A word of a row; 0 behind its end. Constant time.
// Row and place stay two parameters, here and below: a scope that goes outward reads an entry by them once.
fn word_at(row: &[u32], i: usize) -> u32
    ensures { result ≡ slice_index row.now i }
{
    row.get(i).copied().unwrap_or(0)
}

// The bytes of a text from a place to another; none where there is no such part. Constant time.
pub fn part(text: &[u8], from: usize, end: usize) -> &[u8]
    ensures { result.now ≡ part_of text.now from end }
{
    text.get(from..end).unwrap_or(&[])
}

// An entry of a scope: what it is, and its name; a structure or signature itself has none.
#[derive(Clone, Copy, PartialEq, Eq, Debug)]
pub struct Entry<'a> {
    pub binder: Binder,
    pub name: &'a [u8],
}

// Sort and name stay two parameters: each test takes them apart.
impl Entry<'_> {
    // Whether an entry declares this name in this sort. Linear in the name.
    fn is_component(self, sort: Sort, name: &[u8]) -> bool
        ensures { result ≡ is_component sort name.now self.entry.binder self.entry.name.now }
    {
        self.binder == Binder::Component(sort) && name == self.name
    }

    // Whether an entry is what this name of this sort is sought for. Linear in the name.
    fn is_sought(self, sort: Sort, name: &[u8]) -> bool
        ensures { result ≡ is_sought sort name.now self.entry.binder self.entry.name.now }
    {
        let bound = match self.binder {
            Binder::Itself => None,
            Binder::Component(s) => Some(s),
            Binder::Parameter => Some(Sort::Module),
            Binder::Variable => Some(Sort::Value),
        };
        bound == Some(sort) && name == self.name
    }
}

// The entry at a place of the row. Constant time.
fn entry_at<'a>(row: &[u32], text: &'a [u8], i: u32) -> Entry<'a>
    ensures { binding_of result ≡ entry_at row.now text.now i }
{
    let at = 4 * i as usize;
    Entry {
        binder: Binder::from(word_at(row, at)),
        name: part(
            text,
            word_at(row, at + 2) as usize,
            word_at(row, at + 3) as usize,
        ),
    }
}

// The number of the entry around the entry at a place. Constant time.
fn parent_at(row: &[u32], i: u32) -> u32
    ensures { result ≡ parent_at row.now i }
{
    let parent = word_at(row, 4 * i as usize + 1);
    if parent <= i { parent } else { 0 }
}

// What is declared at a place of a text: the entries from one of a number on outward, none where the number is 0.
#[derive(Clone, Copy, PartialEq, Eq, Debug)]
pub struct Scope<'a> {
    pub row: &'a [u32],
    pub text: &'a [u8],
    pub number: u32,
}

impl<'a> Iterator for Scope<'a> {
    ghost use Rattle.std.specs.Iterator.{YieldsFirstBy, item_count};

    type Item = Entry<'a>;

    ghost next_gives = { YieldsFirstBy binding_of entries_of };

    ghost remaining = { item_count entries_of };

    fn next(&mut self) -> Option<Entry<'a>> {
        let at = self.number.checked_sub(1)?;
        self.number = parent_at(self.row, at);
        Some(entry_at(self.row, self.text, at))
    }
}

impl Scope<'_> {
    // Whether a sort and name is declared already in the innermost structure or signature. Linear in what it has declared.
    pub fn is_declared(self, sort: Sort, name: &[u8]) -> bool
        ensures { result ≡ is_declared sort name.now (entries_of self.entry) }
    {
        self.take_while(|entry| entry.binder != Binder::Itself)
            .any(|entry| entry.is_component(sort, name))
    }

    // Whether a name of a sort is declared nowhere around. Linear in what is declared there.
    pub fn is_nowhere(mut self, sort: Sort, name: &[u8]) -> bool
        ensures { result ≡ is_nowhere (seek sort name.now (entries_of self.entry)) }
    {
        !self.any(|entry| entry.is_sought(sort, name))
    }
}

// Adds an entry behind so many, and tells its number. Constant time.
fn append(words: &mut [u32], count: u32, binder: Binder, parent: u32, from: u32, end: u32) -> u32
    requires count_in_bounds { 4 * count + 4 ≤ length words.old }
    requires count_bound { count + 1 < 2 ^ 32 }
    ensures number { result ≡ count + 1 }
    ensures row { words.new ≡ four_at words.old count (binder_number binder) parent from end }
{
    let i = 4 * count as usize;
    words[i] = u32::from(binder);
    words[i + 1] = parent;
    words[i + 2] = from;
    words[i + 3] = end;
    count + 1
}

// The entries made so far, in lent words.
// Words and count by hand: the memory is lent, and no list of the library lies over lent words. No Debug: words behind the count mean nothing.
#[derive(Drop)]
pub struct Entries<'s> {
    words: &'s mut [u32],
    count: u32,
}

impl<'s> Model for Entries<'s> {
    ghost Value = { Entered };

    ghost view = { λ e. record { words = e.words.now; count = e.count } };
}

impl<'s> Entries<'s> {
    // No entries.
    pub fn new(words: &'s mut [u32]) -> Entries<'s>
        ensures { result ≡ record { words = words.old; count = 0 } }
    {
        Entries { words, count: 0 }
    }

    // What is declared where an entry of a number is the innermost. Constant time.
    pub fn scope<'a>(&'a self, text: &'a [u8], number: u32) -> Scope<'a>
        ensures { entries_of result ≡ scope_of self.now.words text.now number }
    {
        Scope {
            row: self.words,
            text,
            number,
        }
    }

    // Enters what a token introduces, if it introduces anything, and tells the number of the innermost entry then. Constant time.
    pub fn enter(&mut self, binder: Option<Binder>, parent: u32, from: u32, end: u32) -> u32
        requires count_in_bounds { 4 * self.old.count + 4 ≤ length self.old.words }
        requires count_bound { self.old.count + 1 < 2 ^ 32 }
        requires parent_le_count { parent ≤ self.old.count }
        ensures entered { EnteredRow self.old.words self.new.words self.old.count binder parent from end result self.new.count }
        ensures room { length self.new.words ≡ length self.old.words }
    {
        match binder {
            Some(b) => {
                self.count = append(self.words, self.count, b, parent, from, end);
                self.count
            }
            None => parent,
        }
    }
}
