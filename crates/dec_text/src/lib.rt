//! Decimal numbers as text: reading them, with the first fault reported, and printing them exactly.
#![tactic(auto)]

mod body;
mod fault;
mod fixed;
pub mod laws;
mod magnitude;
mod read;
mod whole;

pub use fault::DecFault;
pub use fixed::{put_fixed, put_pair};
pub use read::read_decimal;
pub use whole::read_whole;
