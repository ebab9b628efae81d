//! Reading a certificate from a file, in pieces.

ghost use Rattle.std.specs.Prelude.{◌≡◌, ◌≢◌, ◌+◌, ◌≤◌, Err, IfOk, IsTrue, ℕ};
ghost use Rattle.shelf_io.specs.Changes.{HandsOut, OnlyReads};
ghost use Rattle.shelf_io.specs.Counts.{CountsFailure};
ghost use Rattle.box_cert.specs.Spelling.{content};
ghost use Rattle.box_cert.specs.Taking.{TakesCert, is_fault, taken};
ghost use Rattle.box_cert.specs.Text.{IsCertFor};
ghost use Rattle.box_cert.specs.declared.read.TheConstants.{CERT_LIMIT};

use crate::fault::{CertError, TakeCertError};
use crate::feed::CertFeed;
use crate::read::CERT_LIMIT;
use box_core::Cert;
use shelf_io::Shelf;
use std::alloc::Global;

/// How many bytes one read asks for at most.
const READ_SIZE: usize = 4096;

/// The result of reading a whole text, for one that was read from a file.
fn taken(read: Result<Cert, CertError>) -> Result<Cert, TakeCertError>
    ensures { result ≡ taken read }
{
    match read {
        Ok(cert) => Ok(cert),
        Err(CertError::Fault(fault)) => Err(TakeCertError::Grammar(fault)),
        Err(CertError::Memory) => Err(TakeCertError::Memory),
    }
}

/// The certificate in the file under `name`, with recipes of `dims` dyes.
///
/// The text is not kept. After a fault in it the file is read on to its end or to the limit, so that
/// a failed read and a text that is too long come before the fault.
pub fn take_cert<H: Shelf>(
    alloc: Global,
    shelf: &mut H,
    name: &str,
    dims: usize,
) -> Result<Cert, TakeCertError>
    requires some { 1 ≤ dims }
    requires few { dims ≤ 12 }

    ensures takes { TakesCert (H.view shelf.old).contents name.now dims result }
    ensures fits { IfOk result (λ cert. IsCertFor dims (content cert)) }

    ensures effect { OnlyReads (λ n. n ≡ name.now) (H.view shelf.old) (H.view shelf.new) }
    ensures handed { HandsOut name.now (CERT_LIMIT + 1) (H.view shelf.old) (H.view shelf.new) }
    ensures counted { CountsFailure (is_fault result)
        ((H.view shelf.old).read_faults name.now) ((H.view shelf.new).read_faults name.now) }
    ensures promised { IsTrue ((H.view shelf.old).reads_promised name.now) →
        result ≢ Err TakeCertError.Fault }
{
    let Ok(mut feed) = CertFeed::start(alloc, dims) else {
        return Err(TakeCertError::Memory);
    };
    let mut buffer = [0; READ_SIZE];
    let mut offset = 0;
    loop {
        let left = CERT_LIMIT - offset;
        let size = if left < READ_SIZE as u64 {
            left as usize + 1
        } else {
            READ_SIZE
        };
        let Ok(count) = shelf.read_at(name, offset, &mut buffer[..size]) else {
            return Err(TakeCertError::Fault);
        };
        if count == 0 {
            return taken(feed.finish());
        }
        offset += count as u64;
        if offset > CERT_LIMIT {
            return Err(TakeCertError::TooLong);
        }
        let _told = feed.feed(&buffer[..count]);
    }
}
