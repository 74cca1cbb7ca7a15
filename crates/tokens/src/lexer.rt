// The lexer: from a text and a place to the next token, by the longest run that stands there.
ghost use Rattle.std.specs.Prelude.{◌≡◌, drop, None};
ghost use Rattle.std.specs.List.{prefix_len};
ghost use Rattle.tokens.specs.Bytes.{is_digit, is_name_byte};
ghost use Rattle.tokens.specs.Wording.{reason_words};
ghost use Rattle.tokens.specs.Lexer.{MarkAt, mark_of, mark_front, word, name_front, integer_front, token_front, TokenAt, view, told, next_token, fault_number};

use super::bytes::{Class, Run};
use super::token::{Mark, Token, keyword_of};
use std::error::Error;
use std::fmt;

// The longest name, in bytes.
pub const NAME_LIMIT: usize = 16;

// The longest text of a unit, in bytes: the readers of a text, the store and the account hold to it.
pub const TEXT_LIMIT: usize = 4000;

// The longest integer, in digits.
pub const INTEGER_LIMIT: usize = 9;

// The number of the question whether a text reads.
pub const READING_QUESTION: u8 = 3;

// Why no token stands at a place.
#[derive(Clone, Copy, PartialEq, Eq, Debug)]
pub enum Reason {
    // The byte begins no token.
    Byte,
    // A name goes on for over 16 bytes.
    LongName,
    // An integer goes on for over 9 digits.
    LongInteger,
}

// Why no token stands at a place, in a sentence. Constant time.
// A function beside `Display`: it cannot fail, and a caller who keeps or pads the sentence needs no writer.
pub fn reason_words(reason: Reason) -> &'static str
    ensures { result.now ≡ reason_words reason }
{
    match reason {
        Reason::Byte => "no token begins with this byte",
        Reason::LongName => "a name has at most 16 bytes, and this one goes on",
        Reason::LongInteger => "an integer has at most 9 digits, and this one goes on",
    }
}

impl fmt::Display for Reason {
    ghost use Rattle.std.specs.Prelude.{Some};

    ghost output = { λ r. Some (reason_words r) };

    fn fmt<W: fmt::Write>(&self, f: &mut fmt::Formatter<W>) -> fmt::Result {
        f.write_str(reason_words(*self))
    }
}

// A place of a text where no token stands: its first byte, counted from 0.
#[derive(Clone, Copy, PartialEq, Eq, Debug)]
pub struct LexFault {
    pub reason: Reason,
    pub place: usize,
}

// A token with the place of its first byte, and the place right behind its last one.
#[derive(Clone, Copy, PartialEq, Eq, Debug)]
pub struct Placed<'a> {
    pub token: Token<'a>,
    pub place: usize,
    pub end: usize,
}

// The reason, in its sentence: the place is told apart, by line and column.
impl fmt::Display for LexFault {
    ghost use Rattle.std.specs.Prelude.{Some};

    ghost output = { λ e. Some (reason_words e.reason) };

    fn fmt<W: fmt::Write>(&self, f: &mut fmt::Formatter<W>) -> fmt::Result {
        self.reason.fmt(f)
    }
}

impl Error for LexFault {}

impl LexFault {
    // The number of the question that such a text answers with no. Constant time.
    // A method and no `From`: the number is one fact about a fault, and no other form of it.
    pub fn number(self) -> u8
        ensures { result ≡ fault_number self }
    {
        READING_QUESTION
    }
}

// The mark at the front, and what is left behind it. Constant time.
fn mark_at(bytes: &[u8]) -> Option<(Mark, &[u8])>
    ensures { MarkAt bytes.now result }
{
    match bytes {
        [b'[', b'@', b'@', rest @ ..] => Some((Mark::OpenAttribute, rest)),
        [b'-', b'>', rest @ ..] => Some((Mark::Arrow, rest)),
        [b'(', rest @ ..] => Some((Mark::Open, rest)),
        [b')', rest @ ..] => Some((Mark::Close, rest)),
        [b':', rest @ ..] => Some((Mark::Colon, rest)),
        [b'=', rest @ ..] => Some((Mark::Equals, rest)),
        [b',', rest @ ..] => Some((Mark::Comma, rest)),
        [b'.', rest @ ..] => Some((Mark::Dot, rest)),
        [b']', rest @ ..] => Some((Mark::CloseAttribute, rest)),
        _ => None,
    }
}

// The mark at the front as a token, and what is left behind it. Constant time.
fn mark_token_at(bytes: &[u8]) -> Result<(Token<'_>, &[u8]), Reason>
    ensures { TokenAt (mark_front (mark_of bytes.now)) bytes.now result }
{
    let (m, rest) = mark_at(bytes).ok_or(Reason::Byte)?;
    Ok((Token::Mark(m), rest))
}

// The name or keyword at the front, which begins with a letter, and what is left behind it. Linear in the run.
fn name_at(bytes: &[u8]) -> Result<(Token<'_>, &[u8]), Reason>
    ensures { TokenAt (name_front (prefix_len is_name_byte bytes.now) bytes.now) bytes.now result }
{
    let (name, rest) = Run::Name.split(bytes, NAME_LIMIT).ok_or(Reason::LongName)?;
    match keyword_of(name) {
        Some(k) => Ok((Token::Keyword(k), rest)),
        None => Ok((cased(name), rest)),
    }
}

// A name by the case of its first letter. Constant time.
fn cased(name: &[u8]) -> Token<'_>
    ensures { view result ≡ word None name.now }
{
    match name {
        [b'a'..=b'z', ..] => Token::Lower(name),
        _ => Token::Upper(name),
    }
}

// The integer at the front, which begins with a digit, and what is left behind it. Linear in the run.
fn integer_at(bytes: &[u8]) -> Result<(Token<'_>, &[u8]), Reason>
    ensures { TokenAt (integer_front (prefix_len is_digit bytes.now) bytes.now) bytes.now result }
{
    let (digits, rest) = Run::Digits
        .split(bytes, INTEGER_LIMIT)
        .ok_or(Reason::LongInteger)?;
    Ok((Token::Integer(digits), rest))
}

// The token at the front, and what is left behind it. Linear in the run that stands there.
fn token_at(bytes: &[u8]) -> Result<(Token<'_>, &[u8]), Reason>
    ensures { TokenAt (token_front bytes.now) bytes.now result }
{
    let [b, ..] = bytes else {
        return Err(Reason::Byte);
    };
    match Class::from(*b) {
        Class::Lower | Class::Upper => name_at(bytes),
        Class::Digit => integer_at(bytes),
        _ => mark_token_at(bytes),
    }
}

// The first token at or behind a place, blanks skipped; None where only blanks are left or the place is behind the end.
// Each byte from the place to the token's end is looked at a constant number of times.
pub fn next(text: &[u8], from: usize) -> Result<Option<Placed<'_>>, LexFault>
    ensures { told result ≡ next_token text.now from }
{
    let ahead = text.get(from..).unwrap_or(&[]);
    let (_, bytes) = ahead.split_at(Run::Blanks.length(ahead));
    if bytes.is_empty() {
        return Ok(None);
    }
    let place = text.len() - bytes.len();
    // not map_err(..)?: the facts of the error then stand under names that no answer can cite
    match token_at(bytes) {
        Ok((token, rest)) => Ok(Some(Placed {
            token,
            place,
            end: text.len() - rest.len(),
        })),
        Err(reason) => Err(LexFault { reason, place }),
    }
}

// The tokens of a text one behind the other; behind the first place where none stands it gives nothing more.
#[derive(Clone, Debug, Drop)]
pub struct Tokens<'a> {
    text: &'a [u8],
    from: usize,
}

impl<'a> Tokens<'a> {
    // All tokens of a text. Constant time.
    pub fn new(text: &'a [u8]) -> Tokens<'a>
        ensures { (result.text ≡ text.entry) × (result.from ≡ 0) }
    {
        Tokens { text, from: 0 }
    }
}

impl<'a> Iterator for Tokens<'a> {
    ghost use Rattle.std.specs.Prelude.{◌-◌, length};
    ghost use Rattle.std.specs.Iterator.{at_most};
    ghost use Rattle.tokens.specs.Tokens.{GivesNext};

    type Item = Result<Placed<'a>, LexFault>;

    ghost next_gives = { GivesNext };

    ghost remaining = { λ s. at_most (length s.text.now - s.from) };

    fn next(&mut self) -> Option<Result<Placed<'a>, LexFault>> {
        let found = next(self.text, self.from).transpose()?;
        self.from = match found {
            Ok(x) => x.end,
            Err(_) => self.text.len(),
        };
        Some(found)
    }
}
