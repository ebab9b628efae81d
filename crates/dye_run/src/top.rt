ghost use Rattle.std.specs.Prelude.{map, string_bytes};
ghost use Rattle.dye_run.specs.Commands.{plan_for};
ghost use Rattle.dye_run.specs.Forms.{form_of};
ghost use Rattle.dye_run.specs.Headline.{SaysOfRecipes};
ghost use Rattle.run_core.specs.Endings.{Changes, Ended, world};
ghost use Rattle.run_core.specs.Statuses.{IsComplete, IsReliable, StatusTells};

use crate::command::command_of;
use run_core::run_command;
use shelf_io::{Shelf, Sink};
use std::alloc::Global;

/// All that the program does: it reads the words of its command line, reads the due files from the
/// shelf, writes the certificate where the command makes one, puts the text into the sink, and
/// returns the status.
pub fn run<H: Shelf, O: Sink>(alloc: Global, words: &[String], shelf: &mut H, out: &mut O) -> u8
    // How the call ended, and what its status means.
    ensures ended { Ended (plan_for (map string_bytes words.now))
        (world (H.view shelf.old) (O.view out.old))
        (world (H.view shelf.new) (O.view out.new)) result }
    ensures status { StatusTells (plan_for (map string_bytes words.now))
        (world (H.view shelf.old) (O.view out.old))
        (world (H.view shelf.new) (O.view out.new)) result }

    // Over a shelf whose files are known: where nothing fails, the outcome is written and printed,
    // unless memory runs out.
    ensures complete { IsComplete (plan_for (map string_bytes words.now))
        (world (H.view shelf.old) (O.view out.old))
        (world (H.view shelf.new) (O.view out.new)) result }
    ensures reliable { IsReliable (plan_for (map string_bytes words.now))
        (world (H.view shelf.old) (O.view out.old))
        (world (H.view shelf.new) (O.view out.new)) result }

    // What its status means for the recipes of a job.
    ensures recipes { SaysOfRecipes (form_of (map string_bytes words.now))
        (world (H.view shelf.old) (O.view out.old))
        (world (H.view shelf.new) (O.view out.new)) result }

    // What the call may change.
    ensures changes { Changes (plan_for (map string_bytes words.now))
        (world (H.view shelf.old) (O.view out.old)) (world (H.view shelf.new) (O.view out.new)) }
{
    run_command(alloc, command_of(words), shelf, out)
}
