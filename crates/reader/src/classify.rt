// The class of a token over a core's words.
ghost use Rattle.std.specs.Prelude.{◌≡◌};
ghost use Rattle.tokens.specs.Lexer.{view};
ghost use Rattle.tokens.specs.Pieces.{Proper, Digits};
ghost use Rattle.reader.specs.Tokens.{integer_class, class_of, token_of};

use super::class::Class;
use cores::interface::Core;
use tokens::integer::value_of;
use tokens::token::Token;

// The largest rank that can be written.
const RANK_LIMIT: u32 = 255;

// An integer's class: whether it can be a rank. Linear in the digits. No From: not any bytes are digits.
fn integer_class(digits: &[u8]) -> Class
    requires { Digits digits.now }
    ensures { result ≡ integer_class digits.now }
{
    match value_of(digits) {
        Some(n) if n <= RANK_LIMIT => Class::SmallInteger,
        _ => Class::LargeInteger,
    }
}

// The class of a token of a text over this core. The cost of one look among the core's words.
// No From: the class of a name depends on the core.
pub fn class_of<C: Core>(core: &C, token: Token<'_>) -> Class
    requires { Proper (view token) }
    ensures { result ≡ class_of (token_of C.Core.words (view token.entry)) }
{
    match token {
        Token::Mark(m) => Class::from(m),
        Token::Keyword(k) => Class::from(k),
        Token::Lower(name) => core
            .find(name)
            .map_or(Class::Lower, |found| Class::from(found.kind)),
        Token::Upper(_) => Class::Upper,
        Token::Integer(digits) => integer_class(digits),
    }
}
