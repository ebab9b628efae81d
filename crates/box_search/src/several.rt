//! The search for several recipes that pass.

ghost use Rattle.std.specs.Prelude.{◌≡◌, ◌+◌, ◌≤◌, IfOk};
ghost use Rattle.box_search.specs.Found.{IsFound, IsSmall};
ghost use Rattle.box_specs.specs.Span.{lists};

use crate::emit::emit;
use crate::find::{Ended, find};
use crate::found::Found;
use box_core::Carrying;
use std::alloc::{AllocError, Global};

/// Looks for the first recipes, by cost and then by steps, that are admitted and pass, as many as
/// are wanted. At most `budget` boxes are judged, in the order of cost and then steps of their lower
/// corners, and of two boxes with one lower corner the larger first. At most one box is evaluated
/// afresh, that of all recipes.
pub fn search_several<L: Carrying>(
    alloc: Global,
    land: &L,
    wanted: u32,
    budget: u32,
    meter: &mut L::Meter,
) -> Result<Found, AllocError>
    requires wanted { 1 ≤ wanted }
    requires hundred { wanted ≤ 100 }
    requires some { 1 ≤ budget }
    requires few { budget ≤ 1000000 }
    ensures found { IfOk result (λ r. IsFound (L.land land.now) wanted budget r.end
        (lists r.matched.items) (lists r.undecided.items) r.lines.items r.boxes) }
    ensures small { IfOk result (λ r. IsSmall
        (lists r.undecided.items) r.lines.items r.boxes) }
    ensures judged { IfOk result (λ r. L.judged_count land.now meter.new
        ≤ L.judged_count land.now meter.old + r.boxes) }
    ensures at_most { L.judged_count land.now meter.new
        ≤ L.judged_count land.now meter.old + budget }
    ensures fresh { L.fresh_count land.now meter.new ≤ L.fresh_count land.now meter.old + 1 }
{
    let ended = find(alloc, land, wanted, budget, meter)?;
    let Ended { end, boxes, tally } = ended;
    let lines = emit(alloc, land, tally.nodes.as_slice(), boxes)?;
    Ok(Found {
        end,
        boxes,
        matched: tally.matched,
        undecided: tally.undecided,
        lines,
    })
}
