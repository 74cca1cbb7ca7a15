// Words for what the lexer tells.
ghost use Rattle.std.specs.Prelude.{◌≡◌};
ghost use Rattle.account.specs.Wording.{kind_words, shown_byte};
ghost use Rattle.tokens.specs.Lexer.{view};

use std::fmt;
pub use tokens::lexer::reason_words;
use tokens::token::Token;

// What kind of token it is, in words. Constant time.
// A function beside `Display`: it cannot fail, and a caller who keeps or pads the words needs no writer.
pub fn kind_words(token: Token<'_>) -> &'static str
    ensures { result.now ≡ kind_words (view token.entry) }
{
    match token {
        Token::Mark(_) => "mark",
        Token::Keyword(_) => "keyword",
        Token::Lower(_) => "lower name",
        Token::Upper(_) => "upper name",
        Token::Integer(_) => "integer",
    }
}

// A token, shown by the words for its kind.
#[derive(Clone, Copy, PartialEq, Eq, Debug)]
pub struct Kind<'a>(pub Token<'a>);

impl fmt::Display for Kind<'_> {
    ghost use Rattle.std.specs.Prelude.{Some};

    ghost output = { λ k. Some (kind_words (view k.0)) };

    fn fmt<W: fmt::Write>(&self, f: &mut fmt::Formatter<W>) -> fmt::Result {
        f.write_str(kind_words(self.0))
    }
}

// How a byte of a text is shown on a screen, so that each takes one column. Constant time.
// No From: a byte stays a byte.
pub fn shown_byte(b: u8) -> u8
    ensures { result ≡ shown_byte b }
{
    match b {
        32..=126 => b,
        b'\t' => b' ',
        _ => b'?',
    }
}
