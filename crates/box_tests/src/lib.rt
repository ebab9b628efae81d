//! A small landscape of recipes that is lawful, and with it the tests of boxes, of the search and
//! of the check of a certificate.
#![tactic(auto)]

mod ladder;

pub use ladder::Ladder;

#[cfg(test)]
mod check_tests;
#[cfg(test)]
mod tests;
