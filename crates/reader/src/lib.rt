// Texts to syntax: exactly the texts of the grammar, with exact faults.
#![tactic(auto)]

mod attributes;
pub mod class;
mod classify;
pub mod fault;
mod frame;
mod grammar;
mod notes;
mod parse;
pub mod read;
mod row;
pub mod scope;
mod stack;
mod statics;
pub mod symbol;
mod table;
mod type_grammar;
