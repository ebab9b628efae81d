//! What the colour differences of CIELAB have in common, as intervals: the chroma, the differences
//! of lightness, chroma and hue, and the root of the terms that a formula makes of them (CIE 15).
#![tactic(auto)]

mod difference;
pub mod laws;
mod opponents;

pub use difference::{chroma_difference, hue_difference_square, length, lightness_difference};
pub use opponents::{chroma, chroma_square};
