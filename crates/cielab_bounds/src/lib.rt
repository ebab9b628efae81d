//! CIELAB coordinates as intervals, from tristimulus ratios (CIE 15).
#![tactic(auto)]

mod conversion;
mod coordinates;
mod difference;
mod lab_f;
pub mod laws;

pub use conversion::lab;
pub use coordinates::Lab;
pub use difference::{Difference, Formula};
pub use lab_f::f_iv;
