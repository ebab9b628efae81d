//! The laws of the jobs that are accepted: each is also accepted where a batch may be there or not,
//! no name of its files ends with `.cert`, and its budget is in a range.
#![tactic(auto)]

pub mod laws;
