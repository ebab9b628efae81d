//! Lights, the colour differences under them, and verdicts against their tolerances.
#![tactic(auto)]

mod comparing;
mod correcting;
mod correction;
mod few;
mod judging;
pub mod laws;
mod lights;
mod one_light;
mod outcomes;
mod tables;

pub use comparing::{corrected_light, delta_of, delta_with, deltas, first_ratios, light};
pub use judging::{decide, judge_light, verdict};
pub use lights::Lights;
pub use one_light::Light;
pub use outcomes::{Deltas, Verdict};
