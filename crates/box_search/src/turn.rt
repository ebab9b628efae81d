//! Judging one box.

ghost use Rattle.std.specs.Prelude.{◌≡◌, ◌<◌, ◌≤◌, ◌^◌, IfOk, None, OnErr, OnOk, false, length};
ghost use Rattle.box_specs.specs.Canonical.{line_by, line_of};
ghost use Rattle.box_specs.specs.declared.judged.Judged.TheVariants.{StillOpen};
ghost use Rattle.box_specs.specs.Judgements.{is_open, is_passing, is_undecided};
ghost use Rattle.box_specs.specs.Landscape.{IsSound, judgement};
ghost use Rattle.box_specs.specs.Span.{is_single, lists};
ghost use Rattle.box_specs.specs.Splits.{cut_of};
ghost use Rattle.box_specs.specs.Tree.{Spot};
ghost use Rattle.box_core.specs.Meter.{CountsOne};
ghost use Rattle.box_search.specs.Answers.{halves_by, next_recipes};
ghost use Rattle.box_search.specs.Frontier.{halves_of, lower_of, waits_in, with_upper};
ghost use Rattle.box_search.specs.Nodes.{write_at};
ghost use Rattle.box_search.specs.Places.{at};
ghost use Rattle.box_search.specs.Waiting.{AllHeld, AreHeld, HalvesAreHeld, IsHeld, seen, seen_cut, seen_halves, seen_hand};

use crate::frontier::{Frontier, Halves};
use crate::nodes::{Node, write_node};
use crate::place::{Place, place_of};
use crate::waiting::Waiting;
use box_core::{Carried, Carrying, CertLine, Judged, carried};
use price_grid::{Steps, copy_of};
use std::alloc::AllocError;

/// The split line of a box of several recipes, and its halves at their places, with nodes from
/// `next` on.
fn split_open<L: Carrying>(
    land: &L,
    whole: &Carried<L::Held>,
    depth: u64,
    next: u32,
) -> (CertLine, Halves<Waiting<L::Held>>)
    requires held { L.stands land.now whole.now.held whole.now.part }
    requires sound { IsSound (L.land land.now) whole.now.part }
    requires several { is_single whole.now.part ≡ false }
    requires depth { depth < 2 ^ 32 }
    requires next { next < 2 ^ 31 }
    ensures line { result.0 ≡ line_by StillOpen (cut_of whole.now.part) }
    ensures halves { seen_halves result.1 ≡ halves_of (L.land land.now) depth whole.now.part next }
    ensures held { AreHeld (L.stands land.now) result.1 }
{
    let (line, lower, upper) = carried::split(land, whole);
    let lower_place = place_of(land, &lower.part, depth + 1);
    let upper_place = place_of(land, &upper.part, depth + 1);
    let halves = Halves {
        lower: (
            lower_place,
            Waiting {
                carried: lower,
                node: next,
            },
        ),
        upper: (
            upper_place,
            Waiting {
                carried: upper,
                node: next + 1,
            },
        ),
    };
    (line, halves)
}

/// Whether a box is judged open.
fn is_open(judged: Judged) -> bool
    ensures { result ≡ is_open judged }
{
    judged == Judged::StillOpen
}

/// What a search keeps of the boxes that it has judged: their nodes, and the recipes that pass and
/// those that are undecided.
#[derive(Drop)]
pub(crate) struct Tally {
    pub nodes: Vec<Node>,
    pub matched: Vec<Steps>,
    pub undecided: Vec<Steps>,
}

/// The line of a box that was judged, and the halves of an open one, which get the next nodes. A
/// recipe that passes or is undecided joins its list.
fn record_judgement<L: Carrying>(
    land: &L,
    tally: &mut Tally,
    whole: &Carried<L::Held>,
    depth: u64,
    judged: Judged,
) -> Result<(CertLine, Option<Halves<Waiting<L::Held>>>), AllocError>
    requires held { L.stands land.now whole.now.held whole.now.part }
    requires sound { IsSound (L.land land.now) whole.now.part }
    requires judged { judged ≡ judgement (L.land land.now) whole.now.part }
    requires depth { depth < 2 ^ 32 }
    requires few { length tally.old.nodes.items ≤ 2000001 }
    ensures line { IfOk result (λ r. r.0 ≡ line_by judged (cut_of whole.now.part)) }
    ensures halves { IfOk result (λ r. seen_cut r.1 ≡ halves_by (L.land land.now)
        depth whole.now.part (length tally.old.nodes.items) judged) }
    ensures held { IfOk result (λ r. HalvesAreHeld (L.stands land.now) r.1) }
    ensures nodes { tally.new.nodes.items ≡ tally.old.nodes.items }
    ensures matched { OnOk result (lists tally.new.matched.items
        ≡ next_recipes (is_passing judged) whole.now.part (lists tally.old.matched.items)) }
    ensures listed { OnOk result (lists tally.new.undecided.items
        ≡ next_recipes (is_undecided judged) whole.now.part (lists tally.old.undecided.items)) }
{
    match judged {
        Judged::Limit(k) => Ok((CertLine::Limit(k), None)),
        Judged::Fail(j) => Ok((CertLine::Fail(j), None)),
        Judged::StillOpen => {
            let next = tally.nodes.len() as u32;
            let (line, halves) = split_open(land, whole, depth, next);
            Ok((line, Some(halves)))
        }
        Judged::Pass => {
            tally.matched.push(copy_of(&whole.part.lo))?;
            Ok((CertLine::Pass, None))
        }
        Judged::Undecided => {
            tally.undecided.push(copy_of(&whole.part.lo))?;
            Ok((CertLine::Undecided, None))
        }
    }
}

/// Judges the box that was taken from what is held for it, writes its line into its node, and adds
/// its halves if it is open. Where there is no memory, the same boxes wait as before, but a recipe
/// or nodes may have been added.
pub(crate) fn turn<L: Carrying>(
    land: &L,
    frontier: &mut Frontier<Waiting<L::Held>>,
    tally: &mut Tally,
    taken: &(Place, Waiting<L::Held>),
    meter: &mut L::Meter,
) -> Result<(), AllocError>
    requires held { IsHeld (L.stands land.now) taken.now.1 }
    requires others { AllHeld (L.stands land.now) (at frontier.old.map) }
    requires sound { IsSound (L.land land.now) taken.now.1.carried.part }
    requires depth { taken.now.0.depth < 2 ^ 32 }
    requires hand { frontier.old.hand ≡ None }
    requires there { taken.now.1.node < length tally.old.nodes.items }
    requires few { length tally.old.nodes.items ≤ 2000001 }
    ensures hand { let judged = judgement (L.land land.now) taken.now.1.carried.part in
        OnOk result (seen_hand frontier.new.hand ≡ lower_of (halves_by (L.land land.now)
        taken.now.0.depth taken.now.1.carried.part (length tally.old.nodes.items) judged)) }
    ensures map { let judged = judgement (L.land land.now) taken.now.1.carried.part in
        OnOk result ((z : Spot) → seen (at frontier.new.map) z
        ≡ with_upper (halves_by (L.land land.now) taken.now.0.depth taken.now.1.carried.part
        (length tally.old.nodes.items) judged) (seen (at frontier.old.map)) z) }
    ensures held { OnOk result (AllHeld (L.stands land.now) (waits_in frontier.new)) }
    ensures unchanged { OnErr result ((z : Spot) → waits_in frontier.new z
        ≡ waits_in frontier.old z) }
    ensures nodes { OnOk result (tally.new.nodes.items ≡ write_at taken.now.1.node
        (line_of (L.land land.now) taken.now.1.carried.part)
        (is_open (judgement (L.land land.now) taken.now.1.carried.part)) tally.old.nodes.items) }
    ensures matched { OnOk result (lists tally.new.matched.items
        ≡ next_recipes (is_passing (judgement (L.land land.now) taken.now.1.carried.part))
        taken.now.1.carried.part (lists tally.old.matched.items)) }
    ensures listed { OnOk result (lists tally.new.undecided.items
        ≡ next_recipes (is_undecided (judgement (L.land land.now) taken.now.1.carried.part))
        taken.now.1.carried.part (lists tally.old.undecided.items)) }
    ensures judged { CountsOne
        (L.judged_count land.now meter.old) (L.judged_count land.now meter.new) }
    ensures fresh { L.fresh_count land.now meter.new ≡ L.fresh_count land.now meter.old }
{
    let (place, waiting) = taken;
    let whole = &waiting.carried;
    let judged = land.judge_held(&whole.held, &whole.part, meter);
    let (line, halves) = record_judgement(land, tally, whole, place.depth, judged)?;
    write_node(&mut tally.nodes, waiting.node, line, is_open(judged))?;
    frontier.put_halves(halves)
}
