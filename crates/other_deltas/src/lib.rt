//! The CIE94 colour difference (CIE 116), computed in intervals at two scales.
#![tactic(auto)]

mod difference;
mod formula;
mod kind;
pub mod laws;
mod rule;
mod standard;

pub use difference::delta;
pub use kind::Kind94;
pub use rule::Cie94;
pub use standard::Standard94;
