//! A number times units, over a denominator: one multiplication, and a quotient by a guess. For 0
//! units, which most boxes of recipes have of some dyes, the result is 0 without either.

ghost use Rattle.std.specs.Prelude.{◌≡◌, ℕ, pos, ◌*◌, ◌^◌, ◌<◌, ◌≤◌};
ghost use Rattle.interval_specs.specs.Rounding.{floor_over, ceil_over};

use crate::guessed::{quotient, quotient_up};

/// `numerator * units / denominator`, rounded down; `near` is a guess at it.
#[inline(always)]
pub(crate) fn share_down(numerator: u128, units: u32, denominator: u64, near: u64) -> u128
    requires room { numerator ≤ 10 ^ 25 }
    requires positive { 0 < denominator }
    ensures { pos result ≡ floor_over (pos (numerator * units)) denominator }
{
    if units == 0 {
        return 0;
    }
    quotient(numerator * u128::from(units), denominator, near)
}

/// `numerator * units / denominator`, rounded up; `near` is a guess at it.
#[inline(always)]
pub(crate) fn share_up(numerator: u128, units: u32, denominator: u64, near: u64) -> u128
    requires room { numerator ≤ 10 ^ 25 }
    requires positive { 0 < denominator }
    ensures { pos result ≡ ceil_over (pos (numerator * units)) denominator }
{
    if units == 0 {
        return 0;
    }
    quotient_up(numerator * u128::from(units), denominator, near)
}
