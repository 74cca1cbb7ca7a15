// A project: units in a lent store, and the calls that change them.
#![tactic(auto)]

pub mod calls;
pub mod fault;
pub mod loading;
pub mod state;
mod stored;
