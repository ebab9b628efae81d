//! What the commands of a program have in common for the one call that carries them out.

ghost use Rattle.std.specs.Prelude.{◌≡◌, IfOk};
ghost use Rattle.run_core.specs.Judging.{IsJudged, file_view};
ghost use Rattle.run_core.specs.Plan.{Plan, name_of};
ghost use Rattle.run_core.specs.Reading.{ReadsDue};

use crate::report::Report;
use crate::stop::Stop;
use shelf_io::Shelf;
use std::alloc::Global;

/// A command with its words, whose reads and whose outcome follow a plan.
pub trait Planned<'a>: Copy {
    // the files that it asks for, its outcome, and the name that it writes a file under
    ghost plan: { Self → Plan };

    /// Reads the due files, and makes the report on them.
    fn carry_out<H: Shelf>(self, alloc: Global, shelf: &mut H) -> Result<Report<'a>, Stop<'a>>
        ensures judged { IsJudged (plan self).asking (H.view shelf.old) (H.view shelf.new) result }
        ensures reads { ReadsDue (plan self).asking (H.view shelf.old) (H.view shelf.new) }
        ensures own { IfOk result (λ report.
            name_of (file_view report.written) ≡ (plan self).writes) };
}
