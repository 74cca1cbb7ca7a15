// Types: their definition, and how they lie in memory as runs of 32-bit words.
#![tactic(auto)]

pub mod words;

ghost use Rattle.types.specs.Encoding.{Encoding};

// Encoding and decoding undo one another, and different types have different words.
pub fn types_and_words_correspond()
    ensures { Encoding }
{}
