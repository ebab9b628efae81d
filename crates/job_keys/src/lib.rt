//! What every kind of job file has: tables with their keys, kinds of values, faults and their
//! positions, lights, and pairs of names.
#![tactic(auto)]

mod arrays;
mod fault;
mod keys;
mod light;
mod named;
mod pair;
mod section;
mod text;

pub use arrays::count_in;
pub use fault::{JobError, JobFault, JobRule, Part, Position};
pub use keys::natural_in;
pub use light::{JobLight, lights};
pub use named::{Named, has_name};
pub use pair::{JobPair, pairs};
pub use section::Section;
pub use text::Text;
