//! Division by the unit of a scale without a 128-bit division, which is a slow call. The unit is a
//! constant below 2^40, so that each step divides 64-bit numbers by a constant, for which the
//! compiler multiplies.
ghost use Rattle.std.specs.Prelude.{◌≡◌, ℕ, ◌/◌, ◌^◌, ◌≤◌, unsigned_abs};
ghost use Rattle.interval_specs.specs.Rounding.{floor_over, ceil_over};

use crate::scale::{Scale, unit};

/// The quotient of `x` by the unit, rounded down, by long division over digits of 64, 24, 24 and 16
/// bits.
#[inline(always)]
fn over_unit<S: Scale>(x: u128) -> u128
    ensures { result ≡ x / S.unit }
{
    let n = unit::<S>();
    let high = (x / 0x1_0000_0000_0000_0000) as u64;
    let low = (x % 0x1_0000_0000_0000_0000) as u64;
    if high == 0 {
        return (low / n) as u128;
    }
    let second = high % n * 0x100_0000 + low / 0x100_0000_0000;
    let third = second % n * 0x100_0000 + low / 0x1_0000 % 0x100_0000;
    let fourth = third % n * 0x1_0000 + low % 0x1_0000;
    let rest = second / n * 0x100_0000_0000 + third / n * 0x1_0000 + fourth / n;
    (high / n) as u128 * 0x1_0000_0000_0000_0000 + rest as u128
}

/// The quotient of `z` by the unit, rounded down.
pub(crate) fn floor_unit<S: Scale>(z: i128) -> i128
    ensures { result ≡ floor_over z S.unit }
{
    if 0 <= z {
        over_unit::<S>(z as u128) as i128
    } else {
        -1 - over_unit::<S>((-1 - z) as u128) as i128
    }
}

/// The quotient of `z` by the unit, rounded up.
pub(crate) fn ceil_unit<S: Scale>(z: i128) -> i128
    requires { unsigned_abs z ≤ 10 ^ 37 }
    ensures { result ≡ ceil_over z S.unit }
{
    -floor_unit::<S>(-z)
}
