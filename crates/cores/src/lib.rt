// The interface of core languages, and the cores that we ship.
#![tactic(auto)]

pub mod interface;
pub mod laws;
pub mod layers;
pub mod lines;
pub mod mini_c;
pub mod mini_ml;
pub mod pairs;
mod table;
