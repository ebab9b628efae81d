//! Square roots and cube roots of whole numbers and of intervals, rounded outwards.
#![tactic(auto)]

mod cube;
mod interval;
pub mod laws;
mod near_cube;
mod near_square;
mod square;
mod tables;
mod words;

pub use cube::{cbrt_ceil, cbrt_floor};
pub use interval::{cbrt_iv, cbrt_radicand, sqrt_iv};
pub use square::{sqrt_ceil, sqrt_floor};

#[cfg(test)]
mod tests;
