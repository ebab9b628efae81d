//! The recipes of a weighing grid: what a recipe costs, which limits it breaks, and the order of
//! recipes.
//!
//! A recipe is a whole number of steps for each dye, in the order of the job. The grid says how
//! much a step of each dye weighs, how many steps there may be, and what they cost.
#![tactic(auto)]

mod dye_cost;
mod grid;
pub mod laws;
mod limit;
mod limits;
mod measures;
mod order;
mod pricing;
mod words;

pub use dye_cost::DyeCost;
pub use grid::{Grid, Steps, copy_of};
pub use limit::LimitNo;
pub use limits::{Limits, admits, excludes};
pub use order::{Key, compare};
pub use pricing::{cost, key};
pub use words::read_steps;

#[cfg(test)]
mod tests;
