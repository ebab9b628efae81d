//! What the lines of a tree are checked against.

ghost use Rattle.std.specs.Prelude.{◌≡◌};
ghost use Rattle.box_specs.specs.Span.{lists};
ghost use Rattle.box_specs.specs.Validity.{cutoff_of, matched_of};

use box_core::{Claim, Cutoff};
use price_grid::{Steps, copy_of};
use std::slice;

/// Which boxes may be too dear, the recipes that pass, and those that are undecided.
#[derive(Drop)]
pub(crate) struct Stance<'a> {
    pub cutoff: Cutoff,
    pub matched: &'a [Steps],
    pub listed: &'a [Steps],
}

/// The recipes that a claim says pass.
pub(crate) fn matched_of(claim: &Claim) -> &[Steps]
    ensures { lists result.now ≡ matched_of claim.now }
{
    match claim {
        Claim::Match(recipe) => slice::from_ref(recipe),
        Claim::NoMatch => &[],
        Claim::Floor(_) => &[],
    }
}

/// The boxes that a claim says nothing of.
pub(crate) fn cutoff_of(claim: &Claim) -> Cutoff
    ensures { result ≡ cutoff_of claim.now }
{
    match claim {
        Claim::Match(recipe) => Cutoff::After(copy_of(recipe)),
        Claim::NoMatch => Cutoff::Never,
        Claim::Floor(cost) => Cutoff::From(*cost),
    }
}
