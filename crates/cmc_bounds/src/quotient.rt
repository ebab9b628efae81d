//! Intervals between two quotients of natural numbers, each with its own denominator.
ghost use Rattle.std.specs.Prelude.{◌≡◌, ℕ, ◌*◌, ◌^◌, ◌<◌, ◌≤◌};
ghost use Rattle.interval_specs.specs.Ends.{IsHeld};
ghost use Rattle.cmc_bounds.specs.Quotients.{quotient_ends};

use fix_bounds::{Iv, Scale, unit};

/// `numerator / denominator`.
#[derive(Clone, Copy)]
pub(crate) struct Quotient {
    pub(crate) numerator: u128,
    pub(crate) denominator: u128,
}

/// The interval from `low`, rounded down, to `high`, rounded up.
pub(crate) fn outward<S: Scale>(low: Quotient, high: Quotient) -> Iv<S>
    requires low { 0 < low.denominator }
    requires high { 0 < high.denominator }
    requires held { IsHeld
        (quotient_ends low.numerator low.denominator high.numerator high.denominator) }
    ensures is { result
        ≡ quotient_ends low.numerator low.denominator high.numerator high.denominator }
    ensures held { IsHeld result }
{
    let below = low.numerator / low.denominator;
    let above = high.numerator.div_ceil(high.denominator);
    Iv::of_ends(below as i128, above as i128)
}

/// `x` times the number of parts that make 1.
pub(crate) fn times_unit<S: Scale>(x: u128) -> u128
    requires { x ≤ 10 ^ 25 }
    ensures { result ≡ x * S.unit }
{
    x * u128::from(unit::<S>())
}
