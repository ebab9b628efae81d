//! Why a certificate's text is refused.

ghost use Rattle.std.specs.Prelude.{◌≡◌};

use box_core::{CertFault, CertRule};
use thiserror::Error;

/// Why a certificate was not read.
#[derive(Clone, Copy, Debug, Error)]
pub enum CertError {
    /// The text has a fault.
    #[error("line {} of the certificate has a fault", .0.line)]
    Fault(CertFault),
    /// Memory ran out.
    #[error("out of memory")]
    Memory,
}

/// A fault in the line of this number.
pub(crate) fn fault(line: u32, rule: CertRule) -> CertError
    ensures { result ≡ CertError.Fault (record { line = line; rule = rule }) }
{
    CertError::Fault(CertFault { line, rule })
}

/// Why a certificate was not read from a file.
#[derive(Clone, Copy, Debug, Error)]
pub enum TakeCertError {
    /// A read of the file failed.
    #[error("the certificate cannot be read")]
    Fault,
    /// The file has more bytes than a certificate may have.
    #[error("the certificate is too long")]
    TooLong,
    /// The text has a fault.
    #[error("line {} of the certificate has a fault", .0.line)]
    Grammar(CertFault),
    /// Memory ran out.
    #[error("out of memory")]
    Memory,
}
