// The reading loop: a stack of the symbols that are still to be read, and the tokens of a text, one after the other.
ghost use Rattle.std.specs.Prelude.{◌≡◌, ◌≤◌, List, length};
ghost use Rattle.tokens.specs.Lexer.{view};
ghost use Rattle.tokens.specs.Pieces.{Proper};
ghost use Rattle.cores.specs.Meaning.{Word};
ghost use Rattle.reader.specs.Tokens.{token_of};
ghost use Rattle.reader.specs.Streams.{stream_of};
ghost use Rattle.reader.specs.Reading.{learn, reads, default_rank};
ghost use Rattle.reader.specs.Parsing.{start_of, outcome};

use super::class::Class;
use super::classify::class_of;
use super::fault::ReadFault;
use super::stack::Stack;
use super::symbol::Symbol;
use super::table::expand;
use cores::interface::Core;
use tokens::integer::value_of;
use tokens::lexer::Tokens;
use tokens::token::Token;

// The rank of a unit that writes none.
pub const DEFAULT_RANK: u32 = 100;

// What a text is read as.
#[derive(Clone, Copy, PartialEq, Eq, Debug)]
pub enum Start {
    Unit,
    Signature,
}

impl Start {
    // The symbols that are to be read.
    pub fn symbols(self) -> &'static [Symbol]
        ensures { result.now ≡ start_of self }
    {
        match self {
            Start::Unit => &[Symbol::Unit],
            Start::Signature => &[Symbol::Signature, Symbol::Token(Class::TextEnd)],
        }
    }
}

// The rank known after a token that was read for a symbol. Linear in the token.
fn learned(symbol: Symbol, token: Token<'_>, rank: u32) -> u32
    requires { Proper (view token) }
    ensures { (ws : List Word) → result ≡ learn symbol (token_of ws (view token.entry)) rank }
{
    match token {
        Token::Integer(digits) if symbol == Symbol::RankValue => value_of(digits).unwrap_or(rank),
        _ => rank,
    }
}

// Reads a text: the rank that it has, or the first place with which no such text goes on.
// Linear in the text, with one look among the core's words for each lower name.
pub fn parse<C: Core>(
    core: &C,
    text: &[u8],
    scratch: &mut [u32],
    start: Start,
) -> Result<u32, ReadFault>
    requires text_len_bound { length text.now ≤ 4_000 }
    requires scratch_len { length scratch.old ≡ 65_536 }
    ensures { result ≡ outcome (reads (start_of start) (stream_of C.Core.words text.now) default_rank) }
{
    let mut stack = Stack::new(scratch);
    stack.push_all(start.symbols());
    let mut rank = DEFAULT_RANK;
    'tokens: for found in Tokens::new(text) {
        let found = found?;
        let symbol = stack.pop();
        let class = class_of(core, found.token);
        let Some(after) = expand(symbol, class) else {
            return Err(ReadFault::Syntax(found.place));
        };
        rank = learned(symbol, found.token, rank);
        stack.push_all(after.as_slice());
    }
    expand(stack.pop(), Class::TextEnd)
        .map(|_| rank)
        .ok_or(ReadFault::Syntax(text.len()))
}
