// What a token is told in the second pass: how many are open at it, whether it declares a name again, whether it is a head
// that is not declared; and what it enters into the scope.
ghost use Rattle.std.specs.Prelude.{◌≡◌, ◌+◌, ◌^◌, ◌<◌, ◌≤◌, ◌&&◌, [], ◌∷◌, ◌++◌, length, take, nat_le, nat_lt};
ghost use Rattle.reader.specs.Annotate.{around, extra, raised, declaring, again_of, head_kind, head_of, is_missing, is_unit, is_lower, is_upper};
ghost use Rattle.reader.specs.Firsts.{first_of, Listing, span_of, ask_firsts, answered};
ghost use Rattle.reader.specs.Frames.{placed, attr_of};
ghost use Rattle.reader.specs.Rows.{entries_of};

use super::attributes::{Met, declared_sort};
use super::class::Class;
use super::fault::ReadFault;
use super::frame::{Frame, Place};
use super::row::Scope;
use super::scope::{Binder, PathHead, Sort};
use super::symbol::Symbol;
use std::marker::Model;

// What surrounds a token that is read for a symbol. Constant time.
pub fn place_of(met: Met, frame: Frame) -> Place
    ensures { placed result ≡ around met.symbol met.class (attr_of frame) }
{
    if met.is_outside() {
        frame.outer
    } else {
        frame.inner
    }
}

// Whether too much is open at a token. Constant time.
fn is_too_deep(met: Met, place: Place) -> bool
    ensures { result ≡ nat_lt 12 (raised (extra met.symbol met.class) place.opened) }
{
    let extra = met.extra_open().unwrap_or(0);
    OPEN_LIMIT < place.opened.saturating_add(extra)
}

// What a token is told.
#[derive(Clone, Copy, PartialEq, Eq, Debug)]
pub struct Note {
    // too much is open at it
    pub deep: bool,
    // it declares a name again
    pub again: bool,
    // the head that it is, if that is declared nowhere around
    pub undeclared: Option<PathHead>,
}

impl Note {
    // Whether it is a lower head that is not declared. Constant time.
    fn is_missing(self) -> bool
        ensures { result ≡ is_lower self.undeclared }
    {
        matches!(self.undeclared, Some(PathHead::Lower(_)))
    }

    // Whether it is a head that names a unit. Constant time.
    pub fn is_unit(self) -> bool
        ensures { result ≡ is_upper self.undeclared }
    {
        self.undeclared == Some(PathHead::Upper)
    }
}

// Whether a token declares a name again. Linear in what its structure or signature has declared.
// not is_some_and: its closure tells nothing of its answer without a clause of its own, which is longer than the match
fn is_redeclared(scope: Scope<'_>, symbol: Symbol, name: &[u8]) -> bool
    ensures { result ≡ again_of (declaring symbol) name.now (entries_of scope.entry) }
{
    match declared_sort(symbol) {
        Some(sort) => scope.is_declared(sort, name),
        None => false,
    }
}

// The head that a token is, if it is declared nowhere around: an upper one names a unit. Linear in what is declared around it.
fn undeclared(scope: Scope<'_>, met: Met, name: &[u8]) -> Option<PathHead>
    ensures missing { is_lower result ≡ is_missing (head_of (head_kind met.symbol met.class) name.now (entries_of scope.entry)) }
    ensures unit { is_upper result ≡ is_unit (head_of (head_kind met.symbol met.class) name.now (entries_of scope.entry)) }
{
    let head = met.head_kind()?;
    scope.is_nowhere(head.sort(), name).then_some(head)
}

// What a token is told. Linear in what is declared around it.
// Scope, what is met and its name stay three parameters: they are handed on as they are given, to two functions only.
pub fn note_of(scope: Scope<'_>, place: Place, met: Met, name: &[u8]) -> Note
    ensures deep { result.deep ≡ nat_lt 12 (raised (extra met.symbol met.class) place.opened) }
    ensures again { result.again ≡ again_of (declaring met.symbol) name.now (entries_of scope.entry) }
    ensures missing { is_lower result.undeclared ≡ is_missing (head_of (head_kind met.symbol met.class) name.now (entries_of scope.entry)) }
    ensures unit { is_upper result.undeclared ≡ is_unit (head_of (head_kind met.symbol met.class) name.now (entries_of scope.entry)) }
{
    Note {
        deep: is_too_deep(met, place),
        again: is_redeclared(scope, met.symbol, name),
        undeclared: undeclared(scope, met, name),
    }
}

// The first place so far: the old one, or this one if it is bad. Constant time.
// A test and a place, as the definition takes them: one place serves four tests.
pub fn first(old: Option<usize>, bad: bool, place: usize) -> Option<usize>
    ensures { result ≡ first_of old bad place }
{
    old.or(bad.then_some(place))
}

// The part of the text that is a token's name; an empty one where it is no name. Constant time.
// Two numbers and no range: they are kept as two words of an entry.
pub fn span(class: Class, place: usize, end: usize) -> (usize, usize)
    ensures { result ≡ span_of class place end }
{
    match class {
        Class::Lower | Class::Upper => (place, end),
        _ => (0, 0),
    }
}

// The most that may be open at a token.
pub const OPEN_LIMIT: u32 = 12;

// The first places, so far, where too much is open, where a name is declared again, and where a head is not declared.
#[derive(Clone, Copy, PartialEq, Eq, Debug, Default)]
pub struct Firsts {
    pub deep: Option<usize>,
    pub again: Option<usize>,
    pub missing: Option<usize>,
    // the first head that names a unit, at or behind a place that is asked about
    pub mention: Option<usize>,
}

impl Firsts {
    // The first places after a token at a place that is told this, where heads are asked about from a place on. Constant time.
    pub fn after(self, note: Note, at: usize, asked: usize) -> Firsts
        ensures deep { result.deep ≡ first_of self.deep note.deep at }
        ensures again { result.again ≡ first_of self.again note.again at }
        ensures missing { result.missing ≡ first_of self.missing (is_lower note.undeclared) at }
        ensures mention { result.mention ≡ first_of self.mention (is_upper note.undeclared && nat_le asked at) at }
    {
        Firsts {
            deep: first(self.deep, note.deep, at),
            again: first(self.again, note.again, at),
            missing: first(self.missing, note.is_missing(), at),
            mention: first(self.mention, note.is_unit() && asked <= at, at),
        }
    }

    // The first question that is answered with no, if there is one: too deep, then declared again, then not declared. Constant time.
    pub fn verdict(self) -> Result<(), ReadFault>
        ensures { result ≡ answered (ask_firsts self.deep self.again self.missing) }
    {
        let deep = self.deep.map(ReadFault::TooDeep);
        let again = self.again.map(ReadFault::Redeclared);
        let missing = self.missing.map(ReadFault::Undeclared);
        deep.or(again).or(missing).map_or(Ok(()), Err)
    }
}

// The places of heads that name units, listed in lent words.
// Words and count by hand: the memory is lent, and no list of the library lies over lent words. No Debug: words behind the count mean nothing.
#[derive(Drop)]
pub struct Heads<'s> {
    words: &'s mut [u32],
    count: usize,
}

impl<'s> Model for Heads<'s> {
    ghost Value = { Listing };

    ghost view = { λ h. record { places = take h.count h.words.now; room = length h.words.now } };

    ghost invariant = { λ h. h.count ≤ length h.words.now };
}

impl<'s> Heads<'s> {
    // No places.
    pub fn new(words: &'s mut [u32]) -> Heads<'s>
        ensures { result ≡ record { places = []; room = length words.old } }
    {
        Heads { words, count: 0 }
    }

    // Lists a place behind the others. Constant time.
    pub fn push(&mut self, place: usize)
        requires count_in_bounds { length self.old.places < self.old.room }
        requires place_bound { place < 2 ^ 32 }
        ensures { self.new ≡ record { places = self.old.places ++ place ∷ []; room = self.old.room } }
    {
        self.words[self.count] = place as u32;
        self.count += 1;
    }

    // The places that are listed. Constant time.
    pub fn into_places(self) -> &'s [u32]
        ensures { result.now ≡ self.entry.places }
    {
        let Heads { words, count } = self;
        &words[..count]
    }
}
