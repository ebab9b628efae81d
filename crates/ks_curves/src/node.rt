//! A node of a broken line, and the values between two nodes and past one.

ghost use Rattle.std.specs.Prelude.{◌≡◌, ◌+◌, ◌*◌, ◌<◌, ◌≤◌, ℕ, pos};
ghost use Rattle.interval_specs.specs.Rounding.{floor_over, ceil_over};
ghost use Rattle.interval_specs.specs.Operations.{fraction_of, hull_of};
ghost use Rattle.spectral_tables.specs.Spectrum.{ends_of};
ghost use Rattle.ks_curves.specs.BrokenLine.{between_at};
ghost use Rattle.ks_curves.specs.StoredNode.{node_of, past_over};

use crate::guessed::{quotient, quotient_up};
use crate::near::near_share;

/// The units of a node, and the two ends of its value, at most 5,000 at the base scale.
#[derive(Clone, Copy, Default)]
pub(crate) struct StoredNode {
    pub(crate) units: u32,
    pub(crate) low: u64,
    pub(crate) high: u64,
}

/// The sum of `a` and `b`, each times the distance of the other.
#[inline(always)]
fn weigh(a: u64, b: u64, from_a: u32, to_b: u32) -> u128
    ensures { result ≡ a * to_b + b * from_a }
{
    u128::from(a) * u128::from(to_b) + u128::from(b) * u128::from(from_a)
}

/// The mean of `a` and `b`, each weighted by the distance of the other, rounded down. `inverse` is
/// a guess at 2^64 over their distance. Where `b` is not less, the mean is `a` and a share of what
/// `b` has more, which takes one multiplication less.
#[inline(always)]
fn mean_down(a: u64, b: u64, from_a: u32, to_b: u32, inverse: u64) -> u128
    requires { 0 < from_a + to_b }
    ensures { pos result ≡ floor_over (pos (a * to_b + b * from_a)) (from_a + to_b) }
{
    let distance = u64::from(from_a) + u64::from(to_b);
    if a <= b {
        let rise = u128::from(b - a) * u128::from(from_a);
        return u128::from(a) + quotient(rise, distance, near_share(rise, inverse));
    }
    let sum = weigh(a, b, from_a, to_b);
    quotient(sum, distance, near_share(sum, inverse))
}

/// The same, rounded up.
#[inline(always)]
fn mean_up(a: u64, b: u64, from_a: u32, to_b: u32, inverse: u64) -> u128
    requires { 0 < from_a + to_b }
    ensures { pos result ≡ ceil_over (pos (a * to_b + b * from_a)) (from_a + to_b) }
{
    let distance = u64::from(from_a) + u64::from(to_b);
    if a <= b {
        let rise = u128::from(b - a) * u128::from(from_a);
        return u128::from(a) + quotient_up(rise, distance, near_share(rise, inverse));
    }
    let sum = weigh(a, b, from_a, to_b);
    quotient_up(sum, distance, near_share(sum, inverse))
}

impl StoredNode {
    /// The ends of its value.
    #[inline(always)]
    pub(crate) fn ends(&self) -> (u128, u128)
        ensures { ends_of result ≡ (node_of self.now).value }
    {
        (u128::from(self.low), u128::from(self.high))
    }

    /// The lower end of the value at `x` units, from this node to a later one.
    #[inline(always)]
    pub(crate) fn low_at(&self, later: &StoredNode, x: u32, inverse: u64) -> u128
        requires rising { self.now.units < later.now.units }
        requires from { self.now.units ≤ x }
        requires to { x ≤ later.now.units }
        ensures { pos result ≡ (between_at (node_of self.now) (node_of later.now) x).lo }
    {
        mean_down(
            self.low,
            later.low,
            x - self.units,
            later.units - x,
            inverse,
        )
    }

    /// The upper end of the value at `x` units, from this node to a later one.
    #[inline(always)]
    pub(crate) fn high_at(&self, later: &StoredNode, x: u32, inverse: u64) -> u128
        requires rising { self.now.units < later.now.units }
        requires from { self.now.units ≤ x }
        requires to { x ≤ later.now.units }
        ensures { pos result ≡ (between_at (node_of self.now) (node_of later.now) x).hi }
    {
        mean_up(
            self.high,
            later.high,
            x - self.units,
            later.units - x,
            inverse,
        )
    }

    /// The lower end of the same value, without a division at either node.
    #[inline(always)]
    fn low_on(&self, later: &StoredNode, x: u32, inverse: u64) -> u128
        requires rising { self.now.units < later.now.units }
        requires from { self.now.units ≤ x }
        requires to { x ≤ later.now.units }
        ensures { pos result ≡ (between_at (node_of self.now) (node_of later.now) x).lo }
    {
        if x == self.units {
            return u128::from(self.low);
        }
        if x == later.units {
            return u128::from(later.low);
        }
        self.low_at(later, x, inverse)
    }

    /// The upper end of the same value, without a division at either node.
    #[inline(always)]
    fn high_on(&self, later: &StoredNode, x: u32, inverse: u64) -> u128
        requires rising { self.now.units < later.now.units }
        requires from { self.now.units ≤ x }
        requires to { x ≤ later.now.units }
        ensures { pos result ≡ (between_at (node_of self.now) (node_of later.now) x).hi }
    {
        if x == self.units {
            return u128::from(self.high);
        }
        if x == later.units {
            return u128::from(later.high);
        }
        self.high_at(later, x, inverse)
    }

    /// The ends of the values over units from `x0` to `x1`, from this node to a later one. Each end
    /// is that at `x0` or at `x1`, as the line rises or falls.
    #[inline(always)]
    pub(crate) fn between(&self, later: &StoredNode, x0: u32, x1: u32, inverse: u64) -> (u128, u128)
        requires rising { self.now.units < later.now.units }
        requires from { self.now.units ≤ x0 }
        requires ordered { x0 ≤ x1 }
        requires to { x1 ≤ later.now.units }
        ensures { ends_of result
            ≡ hull_of
            (between_at (node_of self.now) (node_of later.now) x0)
            (between_at (node_of self.now) (node_of later.now) x1) }
    {
        let least = if self.low <= later.low { x0 } else { x1 };
        let greatest = if self.high <= later.high { x1 } else { x0 };
        (
            self.low_on(later, least, inverse),
            self.high_on(later, greatest, inverse),
        )
    }

    /// The lower end of the value at `x` units on the line from the origin through this node.
    #[inline(always)]
    pub(crate) fn low_past(&self, x: u32, inverse: u64) -> u128
        requires { 0 < self.now.units }
        ensures { pos result
            ≡ (fraction_of x (node_of self.now).units (node_of self.now).value).lo }
    {
        let low = u128::from(self.low) * u128::from(x);
        quotient(low, u64::from(self.units), near_share(low, inverse))
    }

    /// The upper end of the same value.
    #[inline(always)]
    pub(crate) fn high_past(&self, x: u32, inverse: u64) -> u128
        requires { 0 < self.now.units }
        ensures { pos result
            ≡ (fraction_of x (node_of self.now).units (node_of self.now).value).hi }
    {
        let high = u128::from(self.high) * u128::from(x);
        quotient_up(high, u64::from(self.units), near_share(high, inverse))
    }

    /// The ends of the values over units from `x0` to `x1` on the line from the origin through this
    /// node, which does not fall.
    #[inline(always)]
    pub(crate) fn past(&self, x0: u32, x1: u32, inverse: u64) -> (u128, u128)
        requires { 0 < self.now.units }
        ensures { ends_of result ≡ past_over (node_of self.now) x0 x1 }
    {
        (self.low_past(x0, inverse), self.high_past(x1, inverse))
    }
}
