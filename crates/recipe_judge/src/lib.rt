//! The recipes of a job: their differences from the standard under the lights of the job, and the
//! verdict on them.
#![tactic(auto)]

mod land;
mod landscape;
pub mod laws;
mod lights;
mod verdicts;

pub use land::RecipeLand;
