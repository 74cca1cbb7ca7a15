// Frames of the second pass in lent words: a symbol, with what surrounds it and what surrounds that which follows it.
ghost use Rattle.std.specs.Prelude.{◌≡◌, ◌+◌, ◌*◌, ◌^◌, ◌<◌, ◌≤◌, [], ◌∷◌, ◌++◌, drop, length, slice_index_or};
ghost use Rattle.reader.specs.Annotate.{inherit as inherited, inherits};
ghost use Rattle.reader.specs.Codes.{symbol_number};
ghost use Rattle.reader.specs.Frames.{Framed, framed, placed, attr_of, attr_at, symbol_kept, five_at};

use super::scope::Inherit;
use super::symbol::Symbol;
use std::marker::Model;

// How many are open at a place, and the number of the innermost entry of its scope.
#[derive(Clone, Copy, PartialEq, Eq, Debug)]
pub struct Place {
    pub opened: u32,
    pub scope: u32,
}

// What surrounds a symbol, and what surrounds that which follows a type or a module.
#[derive(Clone, Copy, PartialEq, Eq, Debug)]
pub struct Frame {
    pub inner: Place,
    pub outer: Place,
}

// From what the symbols that follow get theirs: what the symbol has that they follow from, what surrounds its token, and the scope
// with what it enters.
#[derive(Clone, Copy, PartialEq, Eq, Debug)]
pub struct Origin {
    pub frame: Frame,
    pub place: Place,
    pub new: u32,
    ghost room: { place.opened + 2 < 2 ^ 32 },
}

// Nothing is open, and nothing is declared. A constant and no Default: its name says where that holds.
pub const OUTERMOST: Origin = Origin {
    frame: Frame {
        inner: NOTHING,
        outer: NOTHING,
    },
    place: NOTHING,
    new: 0,
};

const NOTHING: Place = Place {
    opened: 0,
    scope: 0,
};

impl Origin {
    // What a symbol that follows gets. Constant time.
    pub fn inherit(self, rule: Inherit) -> Frame
        ensures { attr_of result ≡ inherited rule (attr_of self.frame) (placed self.place) self.new }
    {
        let Place { opened, scope } = self.place;
        match rule {
            Inherit::Same => self.frame,
            Inherit::Here => both(self.place),
            Inherit::Inside => both(Place {
                opened: opened + 1,
                scope,
            }),
            Inherit::Bracket => both(Place {
                opened: opened + 2,
                scope,
            }),
            Inherit::Entered => both(Place {
                opened,
                scope: self.new,
            }),
            Inherit::Opened => both(Place {
                opened: opened + 1,
                scope: self.new,
            }),
            Inherit::Declared => Frame {
                inner: self.place,
                outer: Place {
                    opened,
                    scope: self.new,
                },
            },
            Inherit::Body => Frame {
                inner: Place {
                    opened: opened + 1,
                    scope: self.new,
                },
                outer: self.frame.outer,
            },
        }
    }
}

fn both(place: Place) -> Frame
    ensures { result ≡ record { inner = place; outer = place } }
{
    Frame {
        inner: place,
        outer: place,
    }
}

// The rule of a place; behind the rules, what holds at the token. Constant time.
fn rule_at(rules: &[Inherit], i: usize) -> Inherit
    ensures { result ≡ slice_index_or rules.now i Inherit.Here }
{
    rules.get(i).copied().unwrap_or(Inherit::Here)
}

// Writes the frame at a place. Constant time.
// Word by word: chunks of five would leave words over at the end, and the room of a stack is counted in words.
fn write_frame(words: &mut [u32], i: usize, symbol: Symbol, frame: Frame)
    requires { 5 * i + 5 ≤ length words.old }
    ensures { words.new ≡ five_at words.old i (symbol_number symbol) frame.inner.opened frame.inner.scope frame.outer.opened frame.outer.scope }
{
    words[5 * i] = u32::from(symbol);
    words[5 * i + 1] = frame.inner.opened;
    words[5 * i + 2] = frame.inner.scope;
    words[5 * i + 3] = frame.outer.opened;
    words[5 * i + 4] = frame.outer.scope;
}

// The symbol and the frame at a place. Constant time.
fn read_frame(words: &[u32], i: usize) -> (Symbol, Frame)
    requires { 5 * i + 5 ≤ length words.now }
    ensures symbol { result.0 ≡ symbol_kept words.now i }
    ensures attr { attr_of result.1 ≡ attr_at words.now i }
{
    let frame = Frame {
        inner: Place {
            opened: words[5 * i + 1],
            scope: words[5 * i + 2],
        },
        outer: Place {
            opened: words[5 * i + 3],
            scope: words[5 * i + 4],
        },
    };
    (Symbol::from(words[5 * i]), frame)
}

// A stack of frames, five words for each.
// Words and depth by hand: the memory is lent, and no list of the library lies over lent words. No Debug: words behind the depth mean nothing.
#[derive(Drop)]
pub struct Frames<'s> {
    words: &'s mut [u32],
    depth: usize,
}

impl<'s> Model for Frames<'s> {
    ghost Value = { Framed };

    ghost view = { λ s. framed s.words.now s.depth };

    ghost invariant = { λ s. 5 * s.depth ≤ length s.words.now };
}

impl<'s> Frames<'s> {
    // An empty stack.
    pub fn new(words: &'s mut [u32]) -> Frames<'s>
        ensures { result ≡ record { symbols = []; attrs = []; room = length words.old } }
    {
        Frames { words, depth: 0 }
    }

    // Puts a frame on top. Constant time.
    fn push(&mut self, symbol: Symbol, frame: Frame)
        requires { 5 * length self.old.symbols + 5 ≤ self.old.room }
        ensures { self.new ≡ record { symbols = symbol ∷ self.old.symbols; attrs = attr_of frame ∷ self.old.attrs; room = self.old.room } }
    {
        write_frame(self.words, self.depth, symbol, frame);
        self.depth += 1;
    }

    // The top frame. Constant time.
    fn top(&self) -> (Symbol, Frame)
        requires { 0 < length self.now.symbols }
        ensures symbol { self.now.symbols ≡ result.0 ∷ drop 1 self.now.symbols }
        ensures attr { self.now.attrs ≡ attr_of result.1 ∷ drop 1 self.now.attrs }
    {
        let last = self.depth - 1;
        read_frame(self.words, last)
    }

    // Takes the top frame away. Constant time.
    pub fn pop(&mut self) -> (Symbol, Frame)
        requires { 0 < length self.old.symbols }
        ensures { self.old ≡ record { symbols = result.0 ∷ self.new.symbols; attrs = attr_of result.1 ∷ self.new.attrs; room = self.new.room } }
    {
        let top = self.top();
        self.depth -= 1;
        top
    }

    // Puts the symbols that follow on top, the first one topmost, each with what it gets. Linear in the symbols.
    pub fn push_all(&mut self, after: &[Symbol], rules: &[Inherit], origin: Origin)
        requires { 5 * (length after.now + length self.old.symbols) ≤ self.old.room }
        ensures { self.new ≡ record { symbols = after.now ++ self.old.symbols; attrs = inherits after.now rules.now (attr_of origin.frame) (placed origin.place) origin.new ++ self.old.attrs; room = self.old.room } }
    {
        // With its number: there may be fewer rules than symbols, and a zip with rules added at the end has no reverse.
        'push: for (i, &symbol) in after.iter().enumerate().rev() {
            self.push(symbol, origin.inherit(rule_at(rules, i)));
        }
    }
}
