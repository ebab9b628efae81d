//! Lists of recipes.

ghost use Rattle.std.specs.Prelude.{◌≡◌, ◌&&◌, ◌<◌, ◌≤◌, ◌+◌, None, IfSome, is_some, length, slice_index_or, false, suc, ℕ, true, []};
ghost use Rattle.box_specs.specs.Landscape.{IsLawful, is_before};
ghost use Rattle.box_specs.specs.Span.{IsWithin, lists};
ghost use Rattle.box_specs.specs.Validity.{is_early, is_in_grid, is_later, is_listed, list_failure};
ghost use Rattle.cert_check.specs.Ready.{CutoffIsWithin, IsSorted, previous_of};

use crate::grid::{count_of, is_before, is_in_box, is_same, recipe_at};
use box_core::{BoxR, Cutoff, Landscape, Why};
use price_grid::Steps;

/// Whether a recipe comes before that of the cutoff, if it has one.
fn is_early<L: Landscape>(land: &L, cutoff: &Cutoff, steps: &Steps) -> bool
    requires cut_off { CutoffIsWithin (L.land land.now) cutoff.now }
    requires recipe { IsWithin steps.now.items (L.land land.now).top }
    ensures { result ≡ is_early (L.land land.now) cutoff.now steps.now.items }
{
    match cutoff {
        Cutoff::After(recipe) => is_before(land, steps, recipe),
        Cutoff::From(_) => true,
        Cutoff::Never => true,
    }
}

/// Whether a listed recipe comes after the previous one of the list, if there is one.
fn is_later<L: Landscape>(land: &L, listed: &[Steps], i: usize) -> bool
    requires there { i < length (lists listed.now) }
    requires recipe { IsWithin (slice_index_or (lists listed.now) i []) (L.land land.now).top }
    requires previous { (k : ℕ) → k < i
        → IsWithin (slice_index_or (lists listed.now) k []) (L.land land.now).top }
    ensures { result ≡ is_later (L.land land.now)
        (previous_of (lists listed.now) i) (slice_index_or (lists listed.now) i []) }
{
    i == 0 || is_before(land, recipe_at(listed, i - 1), recipe_at(listed, i))
}

/// Whether a listed recipe is of the grid, comes after the previous one of the list, and comes
/// before the cutoff.
fn is_in_order<L: Landscape>(
    land: &L,
    top: &BoxR,
    cutoff: &Cutoff,
    listed: &[Steps],
    i: usize,
) -> bool
    requires lawful { IsLawful (L.land land.now) }
    requires top { top.now ≡ (L.land land.now).top }
    requires cut_off { CutoffIsWithin (L.land land.now) cutoff.now }
    requires there { i < length (lists listed.now) }
    requires previous { (k : ℕ) → k < i
        → IsWithin (slice_index_or (lists listed.now) k []) (L.land land.now).top }
    ensures { result ≡ is_in_grid (L.land land.now) (slice_index_or (lists listed.now) i [])
        && is_later (L.land land.now)
        (previous_of (lists listed.now) i) (slice_index_or (lists listed.now) i [])
        && is_early (L.land land.now) cutoff.now (slice_index_or (lists listed.now) i []) }
{
    let steps = recipe_at(listed, i);
    if !is_in_box(top, steps) {
        return false;
    }
    is_later(land, listed, i) && is_early(land, cutoff, steps)
}

/// The first listed recipe that is not in order. The list begins in the line of the given number.
pub(crate) fn list_failure<L: Landscape>(
    land: &L,
    cutoff: &Cutoff,
    listed: &[Steps],
    first_line: u32,
) -> Option<(u32, Why)>
    requires cut_off { CutoffIsWithin (L.land land.now) cutoff.now }
    requires few { length (lists listed.now) ≤ 1000000 }
    requires line { first_line ≤ 4000000 }
    ensures { result ≡ list_failure (L.land land.now) cutoff.now first_line None (lists listed.now) }
{
    let top = land.top();
    for i in 0..count_of(listed) {
        if !is_in_order(land, &top, cutoff, listed, i) {
            return Some((first_line + i as u32, Why::WrongList));
        }
    }
    None
}

/// The first index in a rising list whose recipe does not come before this one, or the length of
/// the list where there is none.
fn lower_bound<L: Landscape>(land: &L, listed: &[Steps], steps: &Steps) -> usize
    requires sorted { IsSorted (L.land land.now) (lists listed.now) }
    requires recipe { IsWithin steps.now.items (L.land land.now).top }
    ensures in_list { result ≤ length (lists listed.now) }
    ensures below { (k : ℕ) → k < result
        → is_before (L.land land.now) (slice_index_or (lists listed.now) k []) steps.now.items
        ≡ true }
    ensures above { (k : ℕ) → result ≤ k → k < length (lists listed.now)
        → is_before (L.land land.now) (slice_index_or (lists listed.now) k []) steps.now.items
        ≡ false }
{
    let mut low = 0;
    let mut high = count_of(listed);
    'halving: while low < high {
        let mid = low + (high - low) / 2;
        if is_before(land, recipe_at(listed, mid), steps) {
            low = mid + 1;
        } else {
            high = mid;
        }
    }
    low
}

/// The index of a recipe in a rising list.
pub(crate) fn index_of<L: Landscape>(land: &L, listed: &[Steps], steps: &Steps) -> Option<usize>
    requires sorted { IsSorted (L.land land.now) (lists listed.now) }
    requires recipe { IsWithin steps.now.items (L.land land.now).top }
    ensures listed { is_some result ≡ is_listed (lists listed.now) steps.now.items }
    ensures index { IfSome result (λ i. (i < length (lists listed.now))
        × (slice_index_or (lists listed.now) i [] ≡ steps.now.items)) }
{
    let i = lower_bound(land, listed, steps);
    if i == count_of(listed) {
        return None;
    }
    if !is_same(recipe_at(listed, i), steps) {
        return None;
    }
    Some(i)
}
