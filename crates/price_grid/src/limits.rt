//! The limits of a job.

ghost use Rattle.std.specs.Prelude.{◌≡◌, length};
ghost use Rattle.price_grid.specs.Grid.{IsRecipe, IsUpTo};
ghost use Rattle.price_grid.specs.Limits.{FitGrid, admission, breaks, broken_limit, is_excluded, limits_view, excludes_box, with_bath};

use crate::grid::{Grid, Steps};
use crate::limit::{Limit, LimitNo};
use crate::measures::{any_outside, dyes_used, has_pair, is_above, units_of, with_bath};
use crate::pricing::cost;
use arrayvec::ArrayVec;

/// The limits that a job sets to a recipe. Dyes are numbered from 1.
#[derive(Debug, Drop)]
pub struct Limits {
    /// How many dyes may have any steps.
    pub max_dyes: u8,
    /// How many units of 0.001 percent of the weight of the cloth all dyes may have together.
    pub max_total: u32,
    /// The highest cost, if there is a ceiling.
    pub max_cost: Option<u64>,
    /// The pairs of dyes that a recipe may not have together.
    pub pairs: ArrayVec<(u8, u8), 66>,
    /// The steps of each dye that are already in the bath: all 0, except in a correction.
    pub bath: Steps,
}

/// The steps of a recipe plus those in the bath.
fn sums_of(grid: &Grid, limits: &Limits, steps: &Steps) -> Steps
    requires fit { FitGrid grid.now (limits_view limits.now) }
    requires recipe { IsRecipe grid.now steps.now.items }
    ensures is { result.items ≡ with_bath limits.now.bath.items steps.now.items }
    ensures count { length result.items ≡ length grid.now }
{
    let _dyes = &grid.dyes;
    with_bath(limits.bath.as_slice(), steps.as_slice())
}

/// Whether a recipe breaks the limit.
fn breaks(grid: &Grid, limits: &Limits, limit: Limit, steps: &Steps) -> bool
    requires fit { FitGrid grid.now (limits_view limits.now) }
    requires recipe { IsRecipe grid.now steps.now.items }
    ensures { result ≡ breaks grid.now (limits_view limits.now) limit steps.now.items }
{
    let dyes = grid.dyes.as_slice();
    let sums = sums_of(grid, limits, steps);
    let sums = sums.as_slice();
    match limit {
        Limit::Range => any_outside(dyes, sums, sums),
        Limit::Count => dyes_used(sums) > limits.max_dyes as usize,
        Limit::Total => units_of(dyes, sums) > limits.max_total as u64,
        Limit::Pair => has_pair(limits.pairs.as_slice(), sums),
        Limit::Ceiling => is_above(limits.max_cost, cost(grid, steps)),
    }
}

/// Checks that a recipe keeps all limits. The error is the lowest limit that it breaks.
pub fn admits(grid: &Grid, limits: &Limits, steps: &Steps) -> Result<(), LimitNo>
    requires fit { FitGrid grid.now (limits_view limits.now) }
    requires recipe { IsRecipe grid.now steps.now.items }
    ensures { result
        ≡ admission (broken_limit grid.now (limits_view limits.now) steps.now.items) }
{
    if breaks(grid, limits, Limit::Range, steps) {
        return Err(LimitNo(1));
    }
    if breaks(grid, limits, Limit::Count, steps) {
        return Err(LimitNo(2));
    }
    if breaks(grid, limits, Limit::Total, steps) {
        return Err(LimitNo(3));
    }
    if breaks(grid, limits, Limit::Pair, steps) {
        return Err(LimitNo(4));
    }
    if breaks(grid, limits, Limit::Ceiling, steps) {
        return Err(LimitNo(5));
    }
    Ok(())
}

/// Whether some dye is above its most steps in every recipe from `low` to `high`, or is used with
/// fewer than its least in every one of them.
fn excludes_range(grid: &Grid, limits: &Limits, low: &Steps, high: &Steps) -> bool
    requires fit { FitGrid grid.now (limits_view limits.now) }
    requires low { IsRecipe grid.now low.now.items }
    requires high { IsRecipe grid.now high.now.items }
    ensures { result
        ≡ excludes_box grid.now (limits_view limits.now) Limit.Range low.now.items high.now.items }
{
    let least = sums_of(grid, limits, low);
    let most = sums_of(grid, limits, high);
    any_outside(grid.dyes.as_slice(), least.as_slice(), most.as_slice())
}

/// Whether the limit of this number excludes all recipes from `low` to `high`. A number outside 1
/// to 5 is that of no limit and excludes none.
pub fn excludes(grid: &Grid, limits: &Limits, limit: u8, low: &Steps, high: &Steps) -> bool
    requires fit { FitGrid grid.now (limits_view limits.now) }
    requires low { IsRecipe grid.now low.now.items }
    requires high { IsRecipe grid.now high.now.items }
    requires ordered { IsUpTo low.now.items high.now.items }
    ensures { result
        ≡ is_excluded grid.now (limits_view limits.now) limit low.now.items high.now.items }
{
    match limit {
        1 => excludes_range(grid, limits, low, high),
        2 => breaks(grid, limits, Limit::Count, low),
        3 => breaks(grid, limits, Limit::Total, low),
        4 => breaks(grid, limits, Limit::Pair, low),
        5 => breaks(grid, limits, Limit::Ceiling, low),
        _ => false,
    }
}
