//! Boxes of recipes, what a search finds among them, and when a certificate is valid: definitions
//! over any landscape of recipes, and no code. None of them depends on colours.
#![tactic(auto)]

mod certificate;
mod judged;

pub use certificate::{CertFault, CertLine, CertRule, Checked, Claim, Cutoff, Why};
pub use judged::Judged;
