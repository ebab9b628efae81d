//! The search for the first recipes that pass.
#![tactic(auto)]

mod emit;
mod find;
mod found;
mod frontier;
pub mod laws;
mod nodes;
mod outcome;
mod place;
mod several;
mod turn;
mod waiting;

pub use found::{End, Found};
pub use outcome::{Outcome, search};
pub use several::search_several;
