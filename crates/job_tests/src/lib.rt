//! Tests of job files through public calls. They are in a crate of their own, as a crate with tests
//! is proved twice, and the proof of `job_file` takes long.
#![tactic(auto)]

#[cfg(test)]
mod reading;
#[cfg(test)]
mod resolving;
