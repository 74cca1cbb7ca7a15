// Names as numbers, so that a fault or a record can hold one.
// The number stays a plain u128: records and faults hold plain numbers only.
ghost use Rattle.std.specs.Prelude.{◌≡◌};
ghost use Rattle.store.specs.Names.{front, name_number, Ordered, Sizes, Spells};
ghost use Rattle.store.specs.Numbers.{spread};

use tokens::lexer::NAME_LIMIT;

// The number of a name: its bytes as 16 digits to the base 256, filled up at the right with zeros. None for bytes
// that are no name: none or over 16 of them, or one of them zero. At most 16 steps.
// A function and no TryFrom: the trait and u128 are both another crate's.
pub fn name_number(bytes: &[u8]) -> Option<u128>
    ensures value { result ≡ name_number bytes.now }
    ensures law { Ordered bytes.now result }
{
    if bytes.is_empty() || bytes.len() > NAME_LIMIT || bytes.contains(&0) {
        return None;
    }
    let mut digits = [0; NAME_LIMIT];
    digits[..bytes.len()].copy_from_slice(bytes);
    Some(u128::from_be_bytes(digits))
}

// The 16 digits of a number to the base 256: the bytes of the name whose number it is, and zeros behind them. 16 steps.
pub fn name_bytes(name: u128) -> [u8; 16]
    ensures value { result ≡ spread 16 name }
    ensures law { Spells name result }
{
    name.to_be_bytes()
}

// How many bytes the name has whose number this is: the digits before the first zero. At most 32 steps.
pub fn name_size(name: u128) -> usize
    ensures value { result ≡ front (spread 16 name) }
    ensures law { Sizes name result }
{
    name_bytes(name)
        .iter()
        .position(|b| *b == 0)
        .unwrap_or(NAME_LIMIT)
}
