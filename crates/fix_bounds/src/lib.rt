//! Interval arithmetic in 128-bit integers, at two scales. Where a result is rounded, its lower end
//! is rounded down and its upper end up, once.
#![tactic(auto)]

mod arithmetic;
mod digits;
mod extremes;
mod interval;
pub mod laws;
mod ratios;
mod rounds;
mod scale;

pub use interval::Iv;
pub use ratios::Ratios;
pub use scale::{Base, Quick, Scale, unit};
