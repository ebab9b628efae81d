//! Tests of files and output through their public calls, in memory and over the real system. They
//! are in a crate of their own, since a crate with tests is proved twice.
#![tactic(auto)]

#[cfg(test)]
mod tests;
