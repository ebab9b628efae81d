//! Recipes of the grid and their order.

ghost use Rattle.std.specs.Prelude.{◌≡◌, ◌&&◌, ◌<◌, length, nat_le, slice_index_or, []};
ghost use Rattle.box_specs.specs.Landscape.{is_before};
ghost use Rattle.box_specs.specs.Span.{IsWithin, lists, same_steps};
ghost use Rattle.box_specs.specs.Validity.{is_within};

use box_core::{BoxR, Landscape};
use price_grid::{Steps, compare};

/// Whether a number lies in a range.
fn is_in_range(n: u16, low: u16, high: u16) -> bool
    ensures { result ≡ nat_le low n && nat_le n high }
{
    low <= n && n <= high
}

/// Whether there are as many numbers as ranges, and each lies in its range.
#[tactic(auto, using(crate::proofs::Within::other_length))]
fn is_between(steps: &[u16], low: &[u16], high: &[u16]) -> bool
    requires { length high.now ≡ length low.now }
    ensures { result ≡ is_within steps.now low.now high.now }
{
    if steps.len() != low.len() {
        return false;
    }
    for (i, n) in steps.iter().enumerate() {
        if !is_in_range(*n, low[i], high[i]) {
            return false;
        }
    }
    true
}

/// Whether a recipe lies in a box.
pub(crate) fn is_in_box(part: &BoxR, steps: &Steps) -> bool
    ensures { result ≡ is_within steps.now.items part.now.lo part.now.hi }
{
    is_between(steps.as_slice(), part.lo.as_slice(), part.hi.as_slice())
}

/// Whether a recipe comes before another in the order by cost and then by steps.
pub(crate) fn is_before<L: Landscape>(land: &L, a: &Steps, b: &Steps) -> bool
    requires first { IsWithin a.now.items (L.land land.now).top }
    requires second { IsWithin b.now.items (L.land land.now).top }
    ensures { result ≡ is_before (L.land land.now) a.now.items b.now.items }
{
    compare(&land.key_of(a), &land.key_of(b)).is_lt()
}

/// Whether two recipes are the same.
pub(crate) fn is_same(a: &Steps, b: &Steps) -> bool
    ensures { result ≡ same_steps a.now.items b.now.items }
{
    a.as_slice() == b.as_slice()
}

/// How many recipes are listed.
pub(crate) fn count_of(listed: &[Steps]) -> usize
    ensures { result ≡ length (lists listed.now) }
{
    listed.len()
}

/// A listed recipe.
pub(crate) fn recipe_at(listed: &[Steps], i: usize) -> &Steps
    requires { i < length (lists listed.now) }
    ensures { result.now.items ≡ slice_index_or (lists listed.now) i [] }
{
    &listed[i]
}
