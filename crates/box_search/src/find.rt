//! The search itself.

ghost use Rattle.std.specs.Prelude.{◌≡◌, ◌+◌, ◌==◌, ◌≤◌, IfOk, length};
ghost use Rattle.box_search.specs.Answers.{IsShown};
ghost use Rattle.box_specs.specs.Span.{lists};

use crate::found::End;
use crate::frontier::Frontier;
use crate::nodes::unjudged;
use crate::place::place_of;
use crate::turn::{Tally, turn};
use crate::waiting::Waiting;
use box_core::{Carrying, carried};
use price_grid::Steps;
use std::alloc::{AllocError, Global};

/// How a search ended, how many boxes were judged, and what is kept of them.
#[derive(Drop)]
pub(crate) struct Ended {
    pub end: End,
    pub boxes: u32,
    pub tally: Tally,
}

/// Whether as many recipes are found as are wanted.
fn is_enough(matched: &[Steps], wanted: u32) -> bool
    ensures { result ≡ (length matched.now == wanted) }
{
    matched.len() == wanted as usize
}

/// Judges boxes in the order of their places until as many recipes pass as are wanted, no box is
/// left, or the budget is spent.
pub(crate) fn find<L: Carrying>(
    alloc: Global,
    land: &L,
    wanted: u32,
    budget: u32,
    meter: &mut L::Meter,
) -> Result<Ended, AllocError>
    requires some { 1 ≤ wanted }
    requires few { budget ≤ 1000000 }
    ensures shown { IfOk result (λ r. IsShown (L.land land.now) wanted budget r.end
        (lists r.tally.matched.items) (lists r.tally.undecided.items)
        r.boxes r.tally.nodes.items) }
    ensures judged { IfOk result (λ r. L.judged_count land.now meter.new
        ≤ L.judged_count land.now meter.old + r.boxes) }
    ensures at_most { L.judged_count land.now meter.new
        ≤ L.judged_count land.now meter.old + budget }
    ensures fresh { L.fresh_count land.now meter.new ≤ L.fresh_count land.now meter.old + 1 }
{
    // For its clause that the landscape is lawful.
    let _top = land.top();
    let whole = carried::top(land, meter);
    let place = place_of(land, &whole.part, 0);
    let first = Waiting {
        carried: whole,
        node: 0,
    };
    let mut frontier = Frontier::of(alloc, place, first);
    let nodes = vec![in alloc; unjudged()]?;
    let matched = Vec::new(alloc);
    let undecided = Vec::new(alloc);
    let mut tally = Tally {
        nodes,
        matched,
        undecided,
    };
    for boxes in 0..budget {
        let Some(taken) = frontier.take() else {
            return Ok(Ended {
                end: End::Exhausted,
                boxes,
                tally,
            });
        };
        turn(land, &mut frontier, &mut tally, &taken, meter)?;
        if is_enough(tally.matched.as_slice(), wanted) {
            return Ok(Ended {
                end: End::Enough,
                boxes: boxes + 1,
                tally,
            });
        }
    }
    let end = match frontier.take() {
        None => End::Exhausted,
        Some((place, _next)) => End::Stopped(place.key.cost),
    };
    Ok(Ended {
        end,
        boxes: budget,
        tally,
    })
}
