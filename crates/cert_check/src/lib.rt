//! Checking a certificate: each line of its tree against its box, and the listed recipes against
//! those lines. What an accepted certificate claims holds of the plain list of recipes.
#![tactic(auto)]

mod checking;
mod grid;
pub mod laws;
mod lines;
mod list;
mod marks;
mod stance;
mod waiting;
mod walking;

pub use box_core::{Checked, Why};
pub use checking::check;
