ghost use Rattle.std.specs.Prelude.{◌≡◌, ℕ, ℤ, pos, ◌*◌, ◌^◌, ◌≤◌, ◌<ℤ◌, unsigned_abs};
ghost use Rattle.interval_specs.specs.Ends.{Ends, IsHeld, nothing};
ghost use Rattle.interval_specs.specs.Rounding.{floor_over, ceil_over};
ghost use Rattle.fix_bounds.specs.CanRound.{CanRound};
ghost use Rattle.interval_specs.specs.Operations.{ratio_at};

use crate::rounds::{ceil, ceil_after, floor};
use crate::scale::Scale;
use std::marker::{Model, PhantomData};

/// An interval whose ends count parts of the scale `S`: each part is 1 / `UNIT`. Its ends are in
/// order, and their magnitudes at most 10^25.
#[derive(Clone, Copy)]
pub struct Iv<S: Scale> {
    lo: i128,
    hi: i128,
    scale: PhantomData<S>,
}

impl<S: Scale> Model for Iv<S> {
    ghost Value = { Ends };

    ghost view = { λ a. record { lo = a.lo; hi = a.hi } };

    ghost invariant = { λ a. IsHeld (record { lo = a.lo; hi = a.hi }) };

    ghost inverse = { λ e. record { lo = e.lo; hi = e.hi; scale = record {} } };
}

/// Both ends are 0.
impl<S: Scale> Default for Iv<S> {
    ghost is_default = { λ a. a ≡ nothing };

    fn default() -> Iv<S> {
        Iv::of_ends(0, 0)
    }
}

impl<S: Scale> Iv<S> {
    /// The interval with these ends, in parts of the scale.
    pub fn of_ends(lo: i128, hi: i128) -> Iv<S>
        requires { IsHeld (record { lo = lo; hi = hi }) }
        ensures is { result ≡ record { lo = lo; hi = hi } }
        ensures held { IsHeld result }
    {
        Iv {
            lo,
            hi,
            scale: PhantomData,
        }
    }

    /// The fraction p / q.
    pub fn of_ratio(p: i128, q: i128) -> Iv<S>
        requires positive { pos 0 <ℤ q }
        requires room { unsigned_abs p * S.unit ≤ 10 ^ 37 }
        requires magnitude { unsigned_abs p * S.unit ≤ 10 ^ 25 * unsigned_abs q }
        ensures is { result ≡ ratio_at S.unit p (unsigned_abs q) }
        ensures held { IsHeld result }
    {
        let units = p * S::UNIT;
        Self::rounded(units, units, q)
    }

    /// The lower end, in parts of the scale.
    pub fn lo(self) -> i128
        ensures is { result ≡ self.lo }
        ensures held { IsHeld self }
    {
        self.lo
    }

    /// The upper end, in parts of the scale.
    pub fn hi(self) -> i128
        ensures is { result ≡ self.hi }
        ensures held { IsHeld self }
    {
        self.hi
    }

    /// The interval from `low / by`, rounded down, to `high / by`, rounded up. Where the two
    /// dividends are equal it takes one division.
    pub(crate) fn rounded(low: i128, high: i128, by: i128) -> Iv<S>
        requires { CanRound low high by }
        ensures is { let n = unsigned_abs by in
            result ≡ record { lo = floor_over low n; hi = ceil_over high n } }
        ensures held { IsHeld result }
    {
        let least = floor(low, by);
        if low < high {
            Self::of_ends(least, ceil(high, by))
        } else {
            Self::of_ends(least, ceil_after(least, high, by))
        }
    }
}
