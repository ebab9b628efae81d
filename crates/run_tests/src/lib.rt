//! Tests of `run`, by bytes and status, over a shelf and a sink in memory, and of the texts that it
//! prints. They are in a crate of their own, so that each crate below is proved once.
#![tactic(auto)]

#[cfg(test)]
mod tests;
