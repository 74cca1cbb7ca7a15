// Bytes to tokens. Knows the fixed keywords and marks, and no core language.
#![tactic(auto)]

pub mod bytes;
pub mod count;
pub mod integer;
pub mod lexer;
pub mod token;
