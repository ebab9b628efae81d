//! The records of a table file, as the crate `csv` splits them.

ghost use Rattle.std.specs.Prelude.{◌≡◌, ◌+◌, ◌≤◌, length, map, All, IfOk, List, ℕ};
ghost use Rattle.csv.specs.Reading.{strip_bom};
ghost use Rattle.csv.specs.Records.{fields_of};
ghost use Rattle.spectral_tables.specs.Records.{CanRefuseBytes, records_of, trimmed_fields};

use crate::trim::trimmed;
use csv::{ByteRecord, ErrorKind, ReaderBuilder};
use std::alloc::{AllocError, Global};

/// How many bytes a curve file, a weights file or another file of columns may have.
pub const TABLE_LIMIT: u64 = 1_000_000;

#[tactic(auto, unfolding(csv::specs::Reading::strip_bom))]
fn without_mark(bytes: &[u8]) -> &[u8]
    ensures { result.now ≡ strip_bom bytes.now }
{
    match bytes {
        [0xEF, 0xBB, 0xBF, rest @ ..] => rest,
        _ => bytes,
    }
}

/// The only error of a flexible reader over bytes: memory has run out. Such a reader accepts
/// records of any length and bytes that are no UTF-8. The contract of `csv` also allows an error of
/// the underlying source, but a slice of bytes has none.
fn refusal(kind: &ErrorKind) -> AllocError
    requires { CanRefuseBytes kind.now }
{
    match kind {
        ErrorKind::OutOfMemory | ErrorKind::Io(_) => AllocError,
        _ => unreachable!(),
    }
}

/// The records of the bytes, each with its fields as `csv` reads them: without quotes, and not
/// trimmed.
pub(crate) fn records_of(alloc: Global, bytes: &[u8]) -> Result<Vec<ByteRecord>, AllocError>
    ensures records { IfOk result (λ v. map fields_of v.items ≡ records_of bytes.now) }
    ensures fits { IfOk result (λ v.
        All (λ r. length (fields_of r) ≤ length bytes.now + 1) v.items) }
{
    let reader = ReaderBuilder::new()
        .has_headers(false)
        .flexible(true)
        .from_reader(alloc, without_mark(bytes));
    let mut records = Vec::new(alloc);
    for record in reader.into_byte_records() {
        match record {
            Ok(line) => records.push(line)?,
            Err(error) => return Err(refusal(error.kind())),
        }
    }
    Ok(records)
}

/// The fields of a record, without the spaces and tabs around each.
pub(crate) fn fields_of(alloc: Global, line: &ByteRecord) -> Result<Vec<&[u8]>, AllocError>
    ensures { IfOk result (λ v. map (λ f. f.now) v.items ≡ trimmed_fields (fields_of line.now)) }
{
    let mut fields = Vec::new(alloc);
    for field in line.iter() {
        fields.push(trimmed(field))?;
    }
    Ok(fields)
}
