//! Job files in TOML: a job is read and its curves are found. The error is its first fault, or that
//! memory ran out.
#![tactic(auto)]

mod batch;
mod calibrated;
mod dye;
mod dyeing;
mod job;
pub mod laws;
mod limits;
mod lists;
mod read;
mod resolution;
mod resolved;
mod strength;
mod top;

pub use batch::JobBatch;
pub use dye::JobDye;
pub use dyeing::JobDyeing;
pub use job::Job;
pub use job_keys::{JobError, JobFault, JobLight, JobPair, JobRule, Part, Text};
pub use lists::{DyeList, WeightsList};
pub use read::read_job;
pub use resolution::resolve;
pub use resolved::Resolved;
pub use top::BatchRule;
