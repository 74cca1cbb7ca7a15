// What an account of a unit's text says: lines and columns, kinds of tokens, and the sentence for a fault.
#![tactic(auto)]

pub mod cursor;
pub mod report;
pub mod run;
pub mod wording;
