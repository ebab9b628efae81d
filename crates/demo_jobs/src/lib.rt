//! Generated jobs that look like those of a dyehouse: from a number, the texts of a job, of its
//! curve file and of the weights files of its two lights.
#![tactic(auto)]

mod book;
mod cloths;
mod curve_file;
mod demo;
mod draws;
mod dyes;
mod job_table;
pub mod laws;
mod line;
mod standard;
mod tables;
mod weights;
mod weights_file;

pub use demo::{Bytes, Demo, make};
