//! The tristimulus ratios of a spectrum under the weights of a light and observer (ASTM E308).
#![tactic(auto)]

pub mod laws;
mod white_ratios;

pub use white_ratios::ratios;
