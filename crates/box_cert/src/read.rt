//! Reading a certificate.

ghost use Rattle.std.specs.Prelude.{◌≡◌, ◌≤◌, IfOk, length};
ghost use Rattle.box_cert.specs.Spelling.{Content, cert_text, content};
ghost use Rattle.box_cert.specs.Reading.{Gives};
ghost use Rattle.box_cert.specs.Text.{IsCertFor, cert_of};
ghost use Rattle.box_cert.specs.declared.read.TheConstants.{CERT_LIMIT};

use crate::fault::CertError;
use crate::feed::CertFeed;
use box_core::Cert;
use std::alloc::Global;

/// How many bytes the text of a certificate may have.
pub const CERT_LIMIT: u64 = 64_000_000;

/// The certificate that the bytes spell, with recipes of `dims` dyes, or their first fault.
///
/// Memory grows only with the lines that are there, however many recipes the third line states.
pub fn read_cert(alloc: Global, bytes: &[u8], dims: usize) -> Result<Cert, CertError>
    requires short { length bytes.now ≤ CERT_LIMIT }
    requires some { 1 ≤ dims }
    requires few { dims ≤ 12 }
    // The result is the one that the grammar defines, the certificate or the first fault, unless
    // memory runs out.
    ensures exact { Gives (λ cert. content cert) result (cert_of dims bytes.now) }
    // What is read is within its ranges, and the text is its spelling.
    ensures fits { IfOk result (λ cert. IsCertFor dims (content cert)) }
    ensures found { IfOk result (λ cert. bytes.now ≡ cert_text (content cert)) }
    // The spelling of a certificate is read as that certificate, unless memory runs out.
    ensures unique { (c : Content) → IsCertFor dims c → bytes.now ≡ cert_text c →
        Gives (λ cert. content cert) result (Ok c) }
{
    let Ok(mut feed) = CertFeed::start(alloc, dims) else {
        return Err(CertError::Memory);
    };
    let _told = feed.feed(bytes);
    feed.finish()
}
