// A stack of symbols in lent words of memory.
ghost use Rattle.std.specs.Prelude.{◌≡◌, ◌+◌, ◌<◌, ◌≤◌, [], ◌∷◌, ◌++◌, length};
ghost use Rattle.reader.specs.Stacks.{Stacked, stacked};

use super::symbol::Symbol;
use std::marker::Model;

// Words and depth by hand: the memory is lent, and no list of the library lies over lent words. No Debug: words behind the depth mean nothing.
// Not one type with Frames: the two share the depth alone.
#[derive(Drop)]
pub struct Stack<'s> {
    words: &'s mut [u32],
    depth: usize,
}

impl<'s> Model for Stack<'s> {
    ghost Value = { Stacked };

    ghost view = { λ s. stacked s.words.now s.depth };

    ghost invariant = { λ s. s.depth ≤ length s.words.now };
}

impl<'s> Stack<'s> {
    // An empty stack.
    pub fn new(words: &'s mut [u32]) -> Stack<'s>
        ensures { result ≡ record { symbols = []; room = length words.old } }
    {
        Stack { words, depth: 0 }
    }

    // Puts a symbol on top. Constant time.
    pub fn push(&mut self, symbol: Symbol)
        requires { length self.old.symbols < self.old.room }
        ensures { self.new ≡ record { symbols = symbol ∷ self.old.symbols; room = self.old.room } }
    {
        self.words[self.depth] = u32::from(symbol);
        self.depth += 1;
    }

    // Takes the top symbol away. Constant time.
    pub fn pop(&mut self) -> Symbol
        requires { 0 < length self.old.symbols }
        ensures { self.old ≡ record { symbols = result ∷ self.new.symbols; room = self.new.room } }
    {
        self.depth -= 1;
        Symbol::from(self.words[self.depth])
    }

    // Puts symbols on top, the first one topmost. Linear in the symbols.
    pub fn push_all(&mut self, symbols: &[Symbol])
        requires { length symbols.now + length self.old.symbols ≤ self.old.room }
        ensures { self.new ≡ record { symbols = symbols.now ++ self.old.symbols; room = self.old.room } }
    {
        for &symbol in symbols.iter().rev() {
            self.push(symbol);
        }
    }
}
