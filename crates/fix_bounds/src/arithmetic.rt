//! The operations on intervals. A result that is not exact is rounded outwards, once.
ghost use Rattle.std.specs.Prelude.{◌≡◌, ℕ, pos, ◌+◌, ◌*◌, ◌^◌, ◌<◌, ◌≤◌, ◌<ℤ◌, unsigned_abs};
ghost use Rattle.interval_specs.specs.Ends.{IsHeld, magnitude_of};
ghost use Rattle.interval_specs.specs.Operations.{sum_of, difference_of, product_at, quotient_at, square_at, multiple_of, fraction_of, absolute_of, cut_low_at, cut_high_at, hull_of};

use crate::digits::{ceil_unit, floor_unit};
use crate::extremes::{greatest_quotient, least_quotient, products};
use crate::interval::Iv;
use crate::scale::Scale;

impl<S: Scale> Iv<S> {
    /// The sum of the two intervals.
    pub fn add(self, other: Iv<S>) -> Iv<S>
        requires { magnitude_of self + magnitude_of other ≤ 10 ^ 25 }
        ensures is { result ≡ sum_of self other }
        ensures held { IsHeld result }
    {
        Self::of_ends(self.lo() + other.lo(), self.hi() + other.hi())
    }

    /// The difference of the two intervals.
    pub fn sub(self, other: Iv<S>) -> Iv<S>
        requires { magnitude_of self + magnitude_of other ≤ 10 ^ 25 }
        ensures is { result ≡ difference_of self other }
        ensures held { IsHeld result }
    {
        Self::of_ends(self.lo() - other.hi(), self.hi() - other.lo())
    }

    /// The product of the two intervals.
    pub fn mul(self, other: Iv<S>) -> Iv<S>
        requires { magnitude_of self * magnitude_of other ≤ 10 ^ 25 * S.unit }
        ensures is { result ≡ product_at S.unit self other }
        ensures held { IsHeld result }
    {
        let (least, greatest) = products(self, other);
        Self::of_ends(floor_unit::<S>(least), ceil_unit::<S>(greatest))
    }

    /// The quotient of the two intervals. The divisor lies above 0.
    pub fn div(self, by: Iv<S>) -> Iv<S>
        requires positive { pos 0 <ℤ by.lo }
        requires magnitude { magnitude_of self * S.unit ≤ 10 ^ 25 * unsigned_abs by.lo }
        ensures is { result ≡ quotient_at S.unit self by }
        ensures held { IsHeld result }
    {
        let low = self.lo() * S::UNIT;
        let high = self.hi() * S::UNIT;
        let (near, far) = (by.lo(), by.hi());
        let least = least_quotient(low, near, far);
        Self::of_ends(least, greatest_quotient(high, near, far))
    }

    /// The square of the interval: all squares of its numbers.
    pub fn square(self) -> Iv<S>
        requires { magnitude_of self * magnitude_of self ≤ 10 ^ 25 * S.unit }
        ensures is { result ≡ square_at S.unit self }
        ensures held { IsHeld result }
    {
        let magnitude = self.abs();
        let least = magnitude.lo();
        let greatest = magnitude.hi();
        Self::of_ends(
            floor_unit::<S>(least * least),
            ceil_unit::<S>(greatest * greatest),
        )
    }

    /// `k` times the interval.
    pub fn scale_by(self, k: i64) -> Iv<S>
        requires { magnitude_of self * unsigned_abs k ≤ 10 ^ 25 }
        ensures is { result ≡ multiple_of k self }
        ensures held { IsHeld result }
    {
        let factor = i128::from(k);
        let one = factor * self.lo();
        let other = factor * self.hi();
        Self::of_ends(one.min(other), one.max(other))
    }

    /// The interval times the fraction `num / den`.
    pub fn ratio_up(self, num: u64, den: u64) -> Iv<S>
        requires positive { 0 < den }
        requires room { magnitude_of self * num ≤ 10 ^ 37 }
        requires magnitude { magnitude_of self * num ≤ 10 ^ 25 * den }
        ensures is { result ≡ fraction_of num den self }
        ensures held { IsHeld result }
    {
        let low = self.lo() * i128::from(num);
        let high = self.hi() * i128::from(num);
        Self::rounded(low, high, i128::from(den))
    }

    /// The absolute value of the interval: all magnitudes of its numbers.
    pub fn abs(self) -> Iv<S>
        ensures is { result ≡ absolute_of self }
        ensures held { IsHeld result }
    {
        let low = self.lo();
        let high = self.hi();
        if 0 <= low {
            self
        } else if high <= 0 {
            Self::of_ends(-high, -low)
        } else {
            Self::of_ends(0, high.max(-low))
        }
    }

    /// The interval with each end that lies below the whole number `k` raised to it.
    pub fn cut_low(self, k: i64) -> Iv<S>
        requires { unsigned_abs k ≤ 10 ^ 6 }
        ensures is { result ≡ cut_low_at S.unit k self }
        ensures held { IsHeld result }
    {
        let level = i128::from(k) * S::UNIT;
        Self::of_ends(self.lo().max(level), self.hi().max(level))
    }

    /// The interval with each end that lies above the whole number `k` lowered to it.
    pub fn cut_high(self, k: i64) -> Iv<S>
        requires { unsigned_abs k ≤ 10 ^ 6 }
        ensures is { result ≡ cut_high_at S.unit k self }
        ensures held { IsHeld result }
    {
        let level = i128::from(k) * S::UNIT;
        Self::of_ends(self.lo().min(level), self.hi().min(level))
    }

    /// The least interval that holds both.
    pub fn hull(self, other: Iv<S>) -> Iv<S>
        ensures is { result ≡ hull_of self other }
        ensures held { IsHeld result }
    {
        Self::of_ends(self.lo().min(other.lo()), self.hi().max(other.hi()))
    }
}
