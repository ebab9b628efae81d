//! The search, with its certificate.

ghost use Rattle.std.specs.Prelude.{◌≡◌, ◌+◌, ◌≤◌, IfOk};
ghost use Rattle.box_specs.specs.Canonical.{IsCanonical};
ghost use Rattle.box_specs.specs.Span.{lists};
ghost use Rattle.box_specs.specs.Validity.{IsValid};
ghost use Rattle.box_search.specs.Found.{claim_by};
ghost use Rattle.box_search.specs.Result.{outcome_view, search_result};

use crate::found::{End, Found};
use crate::several::search_several;
use box_core::{Carrying, Cert, Claim, LineList, StepsList};
use price_grid::{Steps, copy_of};
use std::alloc::{AllocError, Global};

/// What a search ends with: its certificate, and how many boxes it judged.
#[derive(Debug, Drop)]
pub struct Outcome {
    pub cert: Cert,
    pub boxes: u32,
}

/// The claim of a search for one recipe.
fn claim_of(end: End, matched: &[Steps]) -> Claim
    ensures { result ≡ claim_by end (lists matched.now) }
{
    match end {
        End::Enough => match matched.first() {
            Some(recipe) => Claim::Match(copy_of(recipe)),
            None => Claim::NoMatch,
        },
        End::Exhausted => Claim::NoMatch,
        End::Stopped(cost) => Claim::Floor(cost),
    }
}

/// Looks for the first recipe, by cost and then by steps, that is admitted and passes. At most
/// `budget` boxes are judged, in the order of cost and then steps of their lower corners, and of
/// two boxes with one lower corner the larger first. At most one box is evaluated afresh, that of
/// all recipes.
pub fn search<L: Carrying>(
    alloc: Global,
    land: &L,
    budget: u32,
    meter: &mut L::Meter,
) -> Result<Outcome, AllocError>
    requires some { 1 ≤ budget }
    requires few { budget ≤ 1000000 }
    ensures canonical { IfOk result (λ r. IsCanonical (L.land land.now) budget
        r.cert.claim r.cert.undecided r.cert.lines r.boxes) }
    ensures is { IfOk result (λ r. outcome_view r
        ≡ search_result (L.land land.now) budget) }
    ensures valid { IfOk result (λ r. IsValid (L.land land.now)
        r.cert.claim r.cert.undecided r.cert.lines) }
    ensures judged { IfOk result (λ r. L.judged_count land.now meter.new
        ≤ L.judged_count land.now meter.old + r.boxes) }
    ensures at_most { L.judged_count land.now meter.new
        ≤ L.judged_count land.now meter.old + budget }
    ensures fresh { L.fresh_count land.now meter.new ≤ L.fresh_count land.now meter.old + 1 }
{
    let found = search_several(alloc, land, 1, budget, meter)?;
    // For its clause that the landscape is lawful.
    let _top = land.top();
    let claim = claim_of(found.end, found.matched.as_slice());
    let Found {
        boxes,
        undecided,
        lines,
        ..
    } = found;
    let cert = Cert {
        claim,
        undecided: StepsList::of(undecided),
        lines: LineList::of(lines),
    };
    Ok(Outcome { cert, boxes })
}
