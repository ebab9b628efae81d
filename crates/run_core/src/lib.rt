//! How a call of the program goes, whatever the command: reading due files, the report or the reason
//! why there is none, the status, and writing and printing.
#![tactic(auto)]

mod delivery;
mod due_files;
mod file_name;
mod inquiry;
mod planned;
mod report;
mod statuses;
mod stop;
mod top;

pub use due_files::{DueFile, due, read_any, read_each, read_one};
pub use file_name::FileName;
pub use inquiry::{Inquiry, inquire};
pub use planned::Planned;
pub use report::{Report, Written, plain_report};
pub use statuses::Conclusion;
pub use stop::{OwnedRefusal, Stop};
pub use top::run_command;
