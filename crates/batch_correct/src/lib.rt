//! The correction of a batch: the cloth that dyes are added to, and the limits of a recipe that is
//! added to a bath.
#![tactic(auto)]

mod base;
mod shift;

pub use base::base_of;
pub use shift::shift_limits;
