//! Mixing by Kubelka and Munk: the K/S of a cloth and of the dyes on it add up, and the sum gives a
//! reflectance.
#![tactic(auto)]

mod base;
mod by_unit;
mod dose;
pub mod laws;
mod mixing;
mod reflectance;
mod strength;
mod sums;

pub use base::BaseCurve;
pub use dose::{Dose, doses_of, no_steps};
pub use mixing::{mix, mix_doses};
pub use reflectance::reflect;
pub use strength::is_too_strong;
pub use sums::Sums;

#[cfg(test)]
mod tests;
