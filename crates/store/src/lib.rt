// The store of a project: units in lent memory, under a directory that holds no name twice.
#![tactic(auto)]

mod bytes;
pub mod directory;
pub mod edit;
pub mod entry;
pub mod layout;
pub mod name;
#[cfg(test)]
mod tests;
mod texts;
pub mod units;
