//! The lines of a tree, each against its box.

ghost use Rattle.std.specs.Prelude.{◌≡◌, None};
ghost use Rattle.box_specs.specs.declared.certificate.CertLine.TheVariants.{Split};
ghost use Rattle.box_specs.specs.declared.certificate.Why.TheVariants.{BadSplit};
ghost use Rattle.box_specs.specs.Landscape.{IsSound, judgement};
ghost use Rattle.box_specs.specs.Span.{IsWithin, lists};
ghost use Rattle.box_specs.specs.Validity.{is_dear, is_listed, line_fault, splits, unless};
ghost use Rattle.cert_check.specs.Held.{HalvesAreHeld, both_boxes};
ghost use Rattle.cert_check.specs.Ready.{CutoffIsWithin, IsReady, IsSorted};
ghost use Rattle.cert_check.specs.Walk.{AtMostOne, halves_by, is_judged_as, recipe_fault};

use crate::grid::is_before;
use crate::list::index_of;
use crate::stance::Stance;
use box_core::{
    BoxR, Carried, Carrying, CertLine, Cutoff, Judged, Landscape, Why, carried, corner_key,
};
use price_grid::Steps;

/// `None` where a line holds, and else why it does not.
fn unless(holds: bool, why: Why) -> Option<Why>
    ensures { result ≡ unless holds why None }
{
    if holds { None } else { Some(why) }
}

/// Whether the box is too dear.
#[tactic(auto, using(crate::proofs::Parts::corner_within))]
fn is_dear<L: Landscape>(land: &L, cutoff: &Cutoff, part: &BoxR) -> bool
    requires cut_off { CutoffIsWithin (L.land land.now) cutoff.now }
    requires part { IsSound (L.land land.now) part.now }
    ensures { result ≡ is_dear (L.land land.now) cutoff.now part.now }
{
    match cutoff {
        Cutoff::After(recipe) => is_before(land, recipe, &part.lo),
        Cutoff::From(cost) => *cost <= corner_key(land, part).cost,
        Cutoff::Never => false,
    }
}

/// Whether a recipe is listed.
fn is_listed<L: Landscape>(land: &L, listed: &[Steps], steps: &Steps) -> bool
    requires sorted { IsSorted (L.land land.now) (lists listed.now) }
    requires recipe { IsWithin steps.now.items (L.land land.now).top }
    ensures { result ≡ is_listed (lists listed.now) steps.now.items }
{
    index_of(land, listed, steps).is_some()
}

/// Whether a recipe is judged as its line says.
fn is_judged_as(line: CertLine, judged: Judged) -> bool
    ensures { result ≡ is_judged_as line judged }
{
    match line {
        CertLine::Undecided => judged == Judged::Undecided,
        CertLine::Pass => judged == Judged::Pass,
        CertLine::Split { .. } => false,
        CertLine::Limit(_) | CertLine::Fail(_) | CertLine::Dear => false,
    }
}

/// Why a line of one recipe does not hold: the box has several, the recipe is judged otherwise than
/// the line says, or it is not listed.
fn recipe_fault<L: Carrying>(
    land: &L,
    listed: &[Steps],
    whole: &Carried<L::Held>,
    line: CertLine,
    otherwise: Why,
    meter: &mut L::Meter,
) -> Option<Why>
    requires sorted { IsSorted (L.land land.now) (lists listed.now) }
    requires held { L.stands land.now whole.now.held whole.now.part }
    requires part { IsSound (L.land land.now) whole.now.part }
    ensures is { result ≡ recipe_fault
        (is_judged_as line (judgement (L.land land.now) whole.now.part))
        otherwise (lists listed.now) whole.now.part }
    ensures judged { AtMostOne
        (L.judged_count land.now meter.old) (L.judged_count land.now meter.new) }
    ensures fresh { L.fresh_count land.now meter.new ≡ L.fresh_count land.now meter.old }
{
    if !whole.part.is_single() {
        return Some(Why::NotPoint);
    }
    let judged = land.judge_held(&whole.held, &whole.part, meter);
    if !is_judged_as(line, judged) {
        return Some(otherwise);
    }
    unless(is_listed(land, listed, &whole.part.lo), Why::WrongList)
}

/// The halves of a box that is split after `mid` steps of the dye of this number, or why it cannot
/// be.
fn split_at<L: Carrying>(
    land: &L,
    whole: &Carried<L::Held>,
    dye: u8,
    mid: u16,
) -> (Option<Why>, Option<(Carried<L::Held>, Carried<L::Held>)>)
    requires held { L.stands land.now whole.now.held whole.now.part }
    requires part { IsSound (L.land land.now) whole.now.part }
    ensures fault { result.0 ≡ unless (splits whole.now.part dye mid) BadSplit None }
    ensures halves { result.0 ≡ None → both_boxes result.1
        ≡ halves_by whole.now.part (Split dye mid) }
    ensures held { HalvesAreHeld (L.stands land.now) result.1 }
{
    match carried::halves(land, whole, dye, mid) {
        None => (Some(Why::BadSplit), None),
        both => (None, both),
    }
}

/// Why a line does not hold for its box, and the halves of a box that it splits.
pub(crate) fn check_line<L: Carrying>(
    land: &L,
    stance: &Stance,
    whole: &Carried<L::Held>,
    line: CertLine,
    meter: &mut L::Meter,
) -> (Option<Why>, Option<(Carried<L::Held>, Carried<L::Held>)>)
    requires ready { IsReady (L.land land.now) stance.now.cutoff
        (lists stance.now.matched.now) (lists stance.now.listed.now) }
    requires held { L.stands land.now whole.now.held whole.now.part }
    requires part { IsSound (L.land land.now) whole.now.part }
    ensures is { result.0 ≡ line_fault (L.land land.now) stance.now.cutoff
        (lists stance.now.matched.now) (lists stance.now.listed.now) whole.now.part line }
    ensures halves { result.0 ≡ None → both_boxes result.1 ≡ halves_by whole.now.part line }
    ensures held { HalvesAreHeld (L.stands land.now) result.1 }
    ensures judged { AtMostOne
        (L.judged_count land.now meter.old) (L.judged_count land.now meter.new) }
    ensures fresh { L.fresh_count land.now meter.new ≡ L.fresh_count land.now meter.old }
{
    match line {
        CertLine::Split { dye, mid } => split_at(land, whole, dye, mid),
        CertLine::Limit(k) => (unless(land.excludes(k, &whole.part), Why::NotLimit), None),
        CertLine::Fail(j) => (
            unless(
                land.fails_held(&whole.held, j, &whole.part, meter),
                Why::NotFailing,
            ),
            None,
        ),
        CertLine::Dear => (
            unless(is_dear(land, &stance.cutoff, &whole.part), Why::NotDear),
            None,
        ),
        CertLine::Undecided => {
            let fault = recipe_fault(land, stance.listed, whole, line, Why::NotUndecided, meter);
            (fault, None)
        }
        CertLine::Pass => {
            let fault = recipe_fault(land, stance.matched, whole, line, Why::NotPassing, meter);
            (fault, None)
        }
    }
}
