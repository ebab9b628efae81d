//! Boxes of recipes: how they are split, what a search can ask about a landscape of recipes, and
//! certificates.
#![tactic(auto)]

pub mod carried;
mod carrying;
mod cert;
mod cutting;
mod evals;
mod fresh;
mod landscape;
pub mod laws;
mod lists;
mod part;

pub use box_specs::{CertFault, CertLine, CertRule, Checked, Claim, Cutoff, Judged, Why};
pub use carried::Carried;
pub use carrying::Carrying;
pub use cert::Cert;
pub use evals::Evals;
pub use fresh::Fresh;
pub use landscape::{Landscape, corner_key};
pub use lists::{LineList, StepsList};
pub use part::{BoxR, Cut, halves, split};
