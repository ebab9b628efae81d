//! Texts that the program prints: those of a recipe, of the result of a search, of an accepted
//! certificate, of the summary of a search, and of each refusal, with the call that puts the text
//! of a refusal into a sink.
#![tactic(auto)]

mod claims;
mod demo;
mod lines;
mod outcome;
mod pieces;
mod recipe;
mod refusal;
mod rules;
mod shown;
mod text;

pub use claims::accepted_text;
pub use demo::demo_text;
pub use outcome::outcome_text;
pub use recipe::{show_text, verdict_name};
pub use refusal::{Refusal, put_refusal};
pub use shown::Shown;
