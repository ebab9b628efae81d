//! The CMC(l:c) colour difference (ISO 105-J03), computed in intervals at two scales.
#![tactic(auto)]

mod angles;
mod chroma;
mod difference;
mod formula;
mod hue;
pub mod laws;
mod lightness;
mod quotient;
mod rule;
mod standard;

pub use difference::delta;
pub use rule::Cmc;
pub use standard::Standard;
