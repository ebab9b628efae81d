ghost use Rattle.std.specs.Prelude.{◌≡◌, ◌≢◌, ◌<◌, ◌≤◌, ◌+◌, ℕ, List, length, Some, IfOk, IfSome, IsErrOf, IsSomeAnd, IsTrue, vec_len};
ghost use Rattle.shelf_io.specs.Changes.{HandsOut, OnlyReads};
ghost use Rattle.shelf_io.specs.Counts.{CountsFailure};
ghost use Rattle.shelf_io.specs.Whole.{is_fault};

use crate::shelf::Shelf;
use std::alloc::{AllocError, Global};
use thiserror::Error;

// How many bytes one read asks for at most.
const READ_SIZE: usize = 4096;

/// Why a file could not be read whole.
#[derive(Debug, Drop, Error)]
pub enum TakeFault {
    /// A read of the name failed.
    #[error("the file cannot be read")]
    Fault,
    /// The file has more bytes than the limit allows.
    #[error("the file is too long")]
    TooLong,
    /// Memory ran out.
    #[error("out of memory")]
    Memory,
}

/// Reads the file under `name` whole, if it has at most `limit` bytes.
///
/// The error is `Fault` where a read failed, `TooLong` where more than `limit` bytes were read, and
/// `Memory` where memory ran out.
pub fn take_file<H: Shelf>(
    alloc: Global,
    shelf: &mut H,
    name: &str,
    limit: u64,
) -> Result<Vec<u8>, TakeFault>
    ensures whole { IfOk result (λ bytes. IfSome (H.view shelf.old).contents
        (λ c. c.file name.now ≡ Some bytes.items)) }
    ensures bound { IfOk result (λ bytes. vec_len bytes ≤ limit) }
    ensures too_long { IsErrOf result TakeFault.TooLong → IfSome (H.view shelf.old).contents
        (λ c. IsSomeAnd (c.file name.now) (λ bytes. limit < length bytes)) }

    ensures effect { OnlyReads (λ n. n ≡ name.now) (H.view shelf.old) (H.view shelf.new) }
    ensures handed { HandsOut name.now (limit + 1) (H.view shelf.old) (H.view shelf.new) }
    ensures counted { CountsFailure (is_fault result)
        ((H.view shelf.old).read_faults name.now) ((H.view shelf.new).read_faults name.now) }
    ensures promised { IsTrue ((H.view shelf.old).reads_promised name.now) →
        result ≢ Err TakeFault.Fault }
{
    let mut bytes = Vec::new(alloc);
    let mut buffer = [0; READ_SIZE];
    while bytes.len() as u64 <= limit {
        let left = limit - bytes.len() as u64;
        let size = if left < READ_SIZE as u64 {
            left as usize + 1
        } else {
            READ_SIZE
        };
        let piece = &mut buffer[..size];
        let Ok(count) = shelf.read_at(name, bytes.len() as u64, piece) else {
            return Err(TakeFault::Fault);
        };
        if count == 0 {
            return Ok(bytes);
        }
        if bytes.extend_from_slice(&buffer[..count]).is_err() {
            return Err(TakeFault::Memory);
        }
    }
    Err(TakeFault::TooLong)
}
