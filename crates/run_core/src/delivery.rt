//! Writing the file of a report, and printing a report or a refusal.

ghost use Rattle.std.specs.Prelude.{◌≡◌, is_err, if◌then◌else◌};
ghost use Rattle.run_core.specs.Delivery.{Delivers, Prints};
ghost use Rattle.run_core.specs.Endings.{not_written_status, world};
ghost use Rattle.run_core.specs.Judging.{file_view};
ghost use Rattle.run_core.specs.Outcome.{conclusion_status, refusal_outcome, status_of, text_of};

use crate::report::Report;
use crate::statuses::{NOT_WRITTEN, conclusion_status, refusal_status};
use box_cert::write_cert;
use shade_report::{Refusal, put_refusal};
use shelf_io::{Failed, Shelf, Sink};

// The status after a put: the given one, or that of a failed put.
fn status_after(put: Result<(), Failed>, status: u8) -> u8
    ensures { result ≡ (if is_err put then not_written_status else status) }
{
    match put {
        Ok(()) => status,
        Err(Failed) => NOT_WRITTEN,
    }
}

// Puts a text, and returns its status, or that of a failed put.
fn print<O: Sink>(text: &[u8], status: u8, out: &mut O) -> u8
    ensures { Prints text.now status (O.view out.old) (O.view out.new) result }
{
    let put = out.put(text);
    status_after(put, status)
}

/// Puts the text of a refusal, and returns its status, or that of a failed put. It allocates no
/// memory.
pub(crate) fn refuse<O: Sink>(refusal: &Refusal, out: &mut O) -> u8
    ensures { Prints (text_of (refusal_outcome refusal.now))
        (status_of (refusal_outcome refusal.now))
        (O.view out.old) (O.view out.new) result }
{
    let put = put_refusal(out, refusal);
    status_after(put, refusal_status(refusal))
}

/// Writes the file of a report, if it has one, and prints the report, or that the file could not be
/// written. It allocates no memory.
pub(crate) fn deliver<H: Shelf, O: Sink>(report: &Report, shelf: &mut H, out: &mut O) -> u8
    ensures { Delivers (file_view report.now.written) report.now.text.items
        (conclusion_status report.now.conclusion)
        (world (H.view shelf.old) (O.view out.old))
        (world (H.view shelf.new) (O.view out.new)) result }
{
    let status = conclusion_status(report.conclusion);
    let Some(file) = &report.written else {
        return print(report.text.as_slice(), status, out);
    };
    match write_cert(&file.cert, shelf, file.name.text) {
        Ok(()) => print(report.text.as_slice(), status, out),
        Err(Failed) => refuse(&Refusal::NotWritten(file.name.text), out),
    }
}
