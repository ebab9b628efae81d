//! Tests of the text of certificates through public calls, hostile texts among them. They are in a
//! crate of their own, since a crate with tests is proved twice.
#![tactic(auto)]

#[cfg(test)]
mod lines;
#[cfg(test)]
mod long;
#[cfg(test)]
mod pieces;
#[cfg(test)]
mod texts;
