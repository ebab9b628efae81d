//! The text of certificates, both ways: each certificate has one spelling.
#![tactic(auto)]

mod draft;
mod fault;
mod feed;
pub mod laws;
mod line;
mod number;
mod read;
mod reader;
mod take;
mod write;

pub use box_core::{CertFault, CertRule};
pub use fault::{CertError, TakeCertError};
pub use feed::CertFeed;
pub use line::{put_line, put_recipe, read_line, read_recipe};
pub use read::{CERT_LIMIT, read_cert};
pub use take::take_cert;
pub use write::write_cert;
