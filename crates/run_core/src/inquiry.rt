//! What every command does: it reads its due files, and then reports on their contents.

ghost use Rattle.std.specs.Prelude.{Result};
ghost use Rattle.run_core.specs.Answers as spec;
ghost use Rattle.run_core.specs.Asking.{Asking};
ghost use Rattle.run_core.specs.Judging.{IsInput, IsJudged, Reports};
ghost use Rattle.run_core.specs.Outcome.{Fault};
ghost use Rattle.run_core.specs.Reading.{ReadsDue};

use crate::report::Report;
use crate::stop::Stop;
use shelf_io::Shelf;
use std::alloc::Global;

/// The words of a command: which files they ask for, and what they report about those files.
pub trait Inquiry<'a>: Copy {
    /// The data that its report is computed from: what its due files are made into, or what is
    /// generated.
    type Input: Drop;

    // the reads that the words ask for, and the outcome
    ghost asking: { Self → Asking };

    // the report on an input, or the fault that refuses it
    ghost judged: { Self → Self.Input → Result spec.Report Fault };

    /// Reads the due files.
    fn read<H: Shelf>(self, alloc: Global, shelf: &mut H) -> Result<Self::Input, Stop<'a>>
        ensures input { IsInput (asking self) (judged self)
            (H.view shelf.old) (H.view shelf.new) result }
        ensures reads { ReadsDue (asking self) (H.view shelf.old) (H.view shelf.new) };

    /// Reports on their contents.
    fn report(self, alloc: Global, input: &Self::Input) -> Result<Report<'a>, Stop<'a>>
        ensures { Reports result (judged self input.now) };
}

/// Reads the due files of a command, and reports on them.
pub fn inquire<'a, H: Shelf, C: Inquiry<'a>>(
    alloc: Global,
    shelf: &mut H,
    command: C,
) -> Result<Report<'a>, Stop<'a>>
    ensures judged { IsJudged (C.asking command)
        (H.view shelf.old) (H.view shelf.new) result }
    ensures reads { ReadsDue (C.asking command) (H.view shelf.old) (H.view shelf.new) }
{
    let input = command.read(alloc, shelf)?;
    command.report(alloc, &input)
}
