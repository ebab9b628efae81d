ghost use Rattle.std.specs.Prelude.{◌≡◌, IfOk, IsErrOf, IsSome, option_map};
ghost use Rattle.run_core.specs.Endings.{Changes, Ended, world};
ghost use Rattle.run_core.specs.Judging.{IsJudged, file_view};
ghost use Rattle.run_core.specs.Plan.{asking_for, name_of, written_by};
ghost use Rattle.run_core.specs.Reading.{ReadsDue};
ghost use Rattle.run_core.specs.Statuses.{IsComplete, IsReliable};

use crate::delivery::{deliver, refuse};
use crate::planned::Planned;
use crate::report::Report;
use crate::statuses::OUT_OF_MEMORY;
use crate::stop::Stop;
use shade_report::Refusal;
use shelf_io::{Shelf, Sink};
use std::alloc::Global;

// The report of a command; where there is none, the words are refused.
fn report_of<'a, H: Shelf, C: Planned<'a>>(
    alloc: Global,
    command: Option<C>,
    shelf: &mut H,
) -> Result<Report<'a>, Stop<'a>>
    ensures judged { IsJudged (asking_for (option_map C.plan command))
        (H.view shelf.old) (H.view shelf.new) result }
    ensures reads { ReadsDue (asking_for (option_map C.plan command))
        (H.view shelf.old) (H.view shelf.new) }
    ensures own { IfOk result (λ report. name_of (file_view report.written)
        ≡ written_by (option_map C.plan command)) }
    ensures memory { IsErrOf result Stop.Memory → IsSome (option_map C.plan command) }
{
    let Some(command) = command else {
        return Err(Stop::Refused(Refusal::Usage));
    };
    command.carry_out(alloc, shelf)
}

// Makes the report of a command, writes its file, and prints the report or the refusal.
fn speak<'a, H: Shelf, O: Sink, C: Planned<'a>>(
    alloc: Global,
    command: Option<C>,
    shelf: &mut H,
    out: &mut O,
) -> u8
    ensures ended { Ended (option_map C.plan command)
        (world (H.view shelf.old) (O.view out.old))
        (world (H.view shelf.new) (O.view out.new)) result }
    ensures changes { Changes (option_map C.plan command)
        (world (H.view shelf.old) (O.view out.old)) (world (H.view shelf.new) (O.view out.new)) }
{
    match report_of(alloc, command, shelf) {
        Ok(report) => deliver(&report, shelf, out),
        Err(stop) => match stop.refusal() {
            Some(refusal) => refuse(&refusal, out),
            None => OUT_OF_MEMORY,
        },
    }
}

/// Carries out a command, or refuses words that form none: it reads the due files from the shelf,
/// writes the file that the command makes, if it makes one, puts the text into the sink, and
/// returns the status.
pub fn run_command<'a, H: Shelf, O: Sink, C: Planned<'a>>(
    alloc: Global,
    command: Option<C>,
    shelf: &mut H,
    out: &mut O,
) -> u8
    // How the call ended.
    ensures ended { Ended (option_map C.plan command)
        (world (H.view shelf.old) (O.view out.old))
        (world (H.view shelf.new) (O.view out.new)) result }

    // Over a shelf whose files are known: where nothing fails, the outcome is written and printed,
    // unless memory runs out.
    ensures complete { IsComplete (option_map C.plan command)
        (world (H.view shelf.old) (O.view out.old))
        (world (H.view shelf.new) (O.view out.new)) result }
    ensures reliable { IsReliable (option_map C.plan command)
        (world (H.view shelf.old) (O.view out.old))
        (world (H.view shelf.new) (O.view out.new)) result }

    // What the call may change.
    ensures changes { Changes (option_map C.plan command)
        (world (H.view shelf.old) (O.view out.old)) (world (H.view shelf.new) (O.view out.new)) }
{
    speak(alloc, command, shelf, out)
}
