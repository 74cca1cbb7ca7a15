// The value of an integer token.
ghost use Rattle.std.specs.Prelude.{◌≡◌, ◌<◌, MatchOption};
ghost use Rattle.tokens.specs.Integers.{decimal};
ghost use Rattle.tokens.specs.Pieces.{Digits};

use super::bytes::Run;
use super::lexer::INTEGER_LIMIT;

// The number that 1 to 9 digits write, leading zeros too; None for any other bytes. Linear in the digits.
pub fn value_of(bytes: &[u8]) -> Option<u32>
    ensures { MatchOption result (Digits bytes.now → ⊥) (λ n. Digits bytes.now × (n ≡ decimal bytes.now) × (n < 1_000_000_000)) }
{
    if bytes.is_empty() || bytes.len() > INTEGER_LIMIT {
        return None;
    }
    let mut value = 0;
    for b in bytes {
        if !Run::Digits.takes(*b) {
            return None;
        }
        value = value * 10 + u32::from(*b - b'0');
    }
    Some(value)
}
