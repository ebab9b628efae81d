//! The least and the greatest product of the ends of two intervals, by two products where neither
//! interval is below 0 and else by four, and of their quotients, by one division each.
ghost use Rattle.std.specs.Prelude.{◌≡◌, ℕ, pos, ◌*◌, ◌^◌, ◌≤◌, ◌≤ℤ◌, ◌<ℤ◌, ◌*ℤ◌, unsigned_abs};
ghost use Rattle.std.specs.Int.{int_min, int_max};
ghost use Rattle.interval_specs.specs.Rounding.{floor_over, ceil_over};
ghost use Rattle.interval_specs.specs.Ends.{Ends, IsHeld, magnitude_of};
ghost use Rattle.interval_specs.specs.Operations.{least_product, greatest_product};

use crate::interval::Iv;
use crate::rounds::{ceil, floor};
use crate::scale::Scale;

/// The least and the greatest product of an end of `first` and an end of `second`.
#[inline(always)]
pub(crate) fn products<S: Scale>(first: Iv<S>, second: Iv<S>) -> (i128, i128)
    requires { magnitude_of first * magnitude_of second ≤ 10 ^ 37 }
    ensures least { result.0 ≡ least_product first second }
    ensures greatest { result.1 ≡ greatest_product first second }
    ensures first_held { IsHeld first }
    ensures second_held { IsHeld second }
{
    let (a, b) = (first.lo(), first.hi());
    let (c, d) = (second.lo(), second.hi());
    if 0 <= a && 0 <= c {
        return (a * c, b * d);
    }
    let (p, q, r, s) = (a * c, a * d, b * c, b * d);
    (p.min(q).min(r.min(s)), p.max(q).max(r.max(s)))
}

/// The lesser of the quotients of `x` by `c` and by `d`, rounded down.
#[inline(always)]
pub(crate) fn least_quotient(x: i128, c: i128, d: i128) -> i128
    requires positive { pos 0 <ℤ c }
    requires ordered { c ≤ℤ d }
    ensures { result ≡ int_min (floor_over x (unsigned_abs c)) (floor_over x (unsigned_abs d)) }
{
    if 0 <= x { floor(x, d) } else { floor(x, c) }
}

/// The greater of the quotients of `x` by `c` and by `d`, rounded up.
#[inline(always)]
pub(crate) fn greatest_quotient(x: i128, c: i128, d: i128) -> i128
    requires positive { pos 0 <ℤ c }
    requires ordered { c ≤ℤ d }
    requires room { unsigned_abs x ≤ 10 ^ 37 }
    ensures { result ≡ int_max (ceil_over x (unsigned_abs c)) (ceil_over x (unsigned_abs d)) }
{
    if 0 <= x { ceil(x, c) } else { ceil(x, d) }
}
