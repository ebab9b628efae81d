ghost use Rattle.std.specs.Prelude.{◌≡◌, ◌+◌, ◌*◌, ◌/◌, ◌^◌, ◌≤◌, ◌≤ℤ◌, ℕ, pos};
ghost use Rattle.std.specs.Int.{div_ceil};
ghost use Rattle.interval_specs.specs.Ranges.{UpTo};
ghost use Rattle.interval_specs.specs.Roots.{square, root_below, root_above};
ghost use Rattle.mix_model.specs.Reflectance.{reflectance_at};

use crate::by_unit::{over_unit, over_unit_up};
use fix_bounds::{Iv, Scale, unit};
use ks_curves::{quotient, quotient_up};
use root_bounds::{sqrt_ceil, sqrt_floor};

/// The lower end of 1 + q + sqrt(q^2 + 2q), from that of q.
#[inline(always)]
fn divisor_down<S: Scale>(q: u64) -> u64
    requires { q ≤ 2 * 10 ^ 6 * S.unit }
    ensures { result ≡ S.unit + q + root_below square ((q * q / S.unit + 2 * q) * S.unit) }
{
    let strength = u128::from(q);
    let radicand = over_unit::<S>(strength * strength) + 2 * strength;
    let root = sqrt_floor(radicand * u128::from(unit::<S>()));
    unit::<S>() + q + root as u64
}

/// The upper end of 1 + q + sqrt(q^2 + 2q), from that of q.
#[inline(always)]
pub(crate) fn divisor_up<S: Scale>(q: u64) -> u64
    requires { q ≤ 2 * 10 ^ 6 * S.unit }
    ensures { result
        ≡ S.unit + q + root_above square ((div_ceil (q * q) S.unit + 2 * q) * S.unit) }
{
    let strength = u128::from(q);
    let radicand = over_unit_up::<S>(strength * strength) + 2 * strength;
    let root = sqrt_ceil(radicand * u128::from(unit::<S>()));
    unit::<S>() + q + root as u64
}

/// A guess at the square of `parts` over `divisor`: the reciprocal of 1 + q + sqrt(q^2 + 2q) is
/// 1 + q - sqrt(q^2 + 2q). Nothing is proved of it.
#[inline(always)]
pub(crate) fn near_reflectance(parts: u64, q: u64, divisor: u64) -> u64 {
    parts.wrapping_add(q).wrapping_mul(2).wrapping_sub(divisor)
}

/// The reflectance of an opaque layer of K/S `q`, by Kubelka and Munk.
pub fn reflect<S: Scale>(q: Iv<S>) -> Iv<S>
    requires not_below { pos 0 ≤ℤ q.lo }
    requires magnitude { q.hi ≤ℤ pos (2 * 10 ^ 6 * S.unit) }
    ensures is { result ≡ reflectance_at S.unit q }
    ensures range { UpTo S.unit result }
{
    let (q_low, q_high) = (q.lo() as u64, q.hi() as u64);
    let by_low = divisor_down::<S>(q_low);
    let by_high = divisor_up::<S>(q_high);
    let parts = unit::<S>();
    let square = u128::from(parts) * u128::from(parts);
    let low = quotient(square, by_high, near_reflectance(parts, q_high, by_high));
    let above = near_reflectance(parts, q_low, by_low); // the quotient rounded up, or one more
    let high = quotient_up(square, by_low, above.wrapping_sub(1));
    Iv::of_ends(low as i128, high as i128)
}
