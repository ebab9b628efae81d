//! The values of a recipe that the limits are about.

ghost use Rattle.std.specs.Prelude.{◌≡◌, ◌≤◌, ◌<◌, ◌-◌, ℕ, length, All, nat_lt, slice_index};
ghost use Rattle.std.specs.List.{AllZip, count_by, list_any};
ghost use Rattle.price_grid.specs.Grid.{IsGrid};
ghost use Rattle.price_grid.specs.Limits.{any_outside, dyes_used, has_both, is_above, is_outside, units_of, with_bath};

use crate::dye_cost::DyeCost;
use crate::grid::Steps;

/// The steps of a recipe plus those in the bath.
pub(crate) fn with_bath(bath: &[u16], steps: &[u16]) -> Steps
    requires lengths { length steps.now ≡ length bath.now }
    requires few { length bath.now ≤ 12 }
    requires bath { All (λ n. n ≤ 4000) bath.now }
    requires steps { All (λ n. n ≤ 4000) steps.now }
    ensures { result.items ≡ with_bath bath.now steps.now }
{
    let mut sums = Steps::new();
    for (i, n) in steps.iter().enumerate() {
        sums.push(bath[i] + *n);
    }
    sums
}

/// Whether all numbers of steps from `low` to `high` are above the most steps of the dye, or all
/// are above 0 and below its fewest.
fn is_outside(dye: &DyeCost, low: u16, high: u16) -> bool
    ensures { result ≡ is_outside dye.now low high }
{
    low > dye.most || (low > 0 && high < dye.least)
}

/// Whether some dye is above its most steps for all its numbers of steps from `low` to `high`, or
/// is used with fewer than its least for all of them.
pub(crate) fn any_outside(dyes: &[DyeCost], low: &[u16], high: &[u16]) -> bool
    requires low { length low.now ≡ length dyes.now }
    requires high { length high.now ≡ length dyes.now }
    ensures { result ≡ any_outside dyes.now low.now high.now }
{
    for (i, dye) in dyes.iter().enumerate() {
        if is_outside(dye, low[i], high[i]) {
            return true;
        }
    }
    false
}

/// How many dyes have any steps.
pub(crate) fn dyes_used(steps: &[u16]) -> usize
    ensures { result ≡ dyes_used steps.now }
{
    steps.iter().filter(|n| **n > 0).count()
}

/// The units of all dyes together.
pub(crate) fn units_of(dyes: &[DyeCost], steps: &[u16]) -> u64
    requires few { length dyes.now ≤ 12 }
    requires lengths { length steps.now ≡ length dyes.now }
    ensures { result ≡ units_of dyes.now steps.now }
{
    let mut units = 0;
    for (i, dye) in dyes.iter().enumerate() {
        units += u64::from(steps[i]) * u64::from(dye.step);
    }
    units
}

/// Whether there are steps of both dyes of some pair.
pub(crate) fn has_pair(pairs: &[(u8, u8)], steps: &[u16]) -> bool
    requires { All (λ pair. (1 ≤ pair.0) × (pair.0 ≤ length steps.now)
        × (1 ≤ pair.1) × (pair.1 ≤ length steps.now)) pairs.now }
    ensures { result ≡ list_any (has_both steps.now) pairs.now }
{
    for (first, second) in pairs {
        if steps[*first as usize - 1] > 0 && steps[*second as usize - 1] > 0 {
            return true;
        }
    }
    false
}

/// Whether the cost is above the ceiling, if there is one.
pub(crate) fn is_above(ceiling: Option<u64>, cost: u64) -> bool
    ensures { result ≡ is_above ceiling cost }
{
    ceiling.is_some_and(|most| cost > most)
}
