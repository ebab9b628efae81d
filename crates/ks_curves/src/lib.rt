//! The calibration of dyes: K/S of a reflectance by Kubelka and Munk, and what a dye adds to it,
//! along a straight line or a broken one.
#![tactic(auto)]

mod broken;
mod calibration;
mod contributions;
mod dye;
mod guessed;
mod kind;
mod kubelka_munk;
pub mod laws;
mod near;
mod node;
mod nodes;
mod piece;
mod reach;
mod shape;
mod share;
mod slope;

pub use contributions::{
    addition_placed, addition_range, addition_range_placed, addition_units, contribution,
    contribution_range, contribution_units,
};
pub use dye::Dye;
pub use guessed::{quotient, quotient_up};
pub use kind::Calibration;
pub use kubelka_munk::ks;
pub use reach::Places;

#[cfg(test)]
mod tests;
