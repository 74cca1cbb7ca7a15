// The tokens of a whole text, counted by kind.
ghost use Rattle.std.specs.Prelude.{◌≡◌, ◌+◌, ◌^◌, ◌<◌};
ghost use Rattle.tokens.specs.Counting.{more, total, Surveyed};
ghost use Rattle.tokens.specs.Lexer.{view};

use super::lexer::{LexFault, Tokens};
use super::token::Token;

// How many tokens of each kind a text has.
#[derive(Clone, Copy, PartialEq, Eq, Debug, Default)]
pub struct Counts {
    pub marks: usize,
    pub keywords: usize,
    pub lowers: usize,
    pub uppers: usize,
    pub integers: usize,
}

impl Counts {
    // One token more. Constant time.
    fn and(self, token: Token<'_>) -> Counts
        requires { total self + 1 < 2 ^ 64 }
        ensures { result ≡ more self (view token.entry) }
    {
        let mut counts = self;
        match token {
            Token::Mark(_) => counts.marks += 1,
            Token::Keyword(_) => counts.keywords += 1,
            Token::Lower(_) => counts.lowers += 1,
            Token::Upper(_) => counts.uppers += 1,
            Token::Integer(_) => counts.integers += 1,
        }
        counts
    }
}

// The tokens of a text, counted by kind, or the first place where no token stands.
// Each byte is looked at a constant number of times.
pub fn count_tokens(text: &[u8]) -> Result<Counts, LexFault>
    ensures { Surveyed text.now result }
{
    let mut counts = Counts::default();
    for found in Tokens::new(text) {
        counts = counts.and(found?.token);
    }
    Ok(counts)
}
