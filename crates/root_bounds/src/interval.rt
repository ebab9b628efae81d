ghost use Rattle.std.specs.Prelude.{◌≡◌, ℕ, pos, ◌*◌, ◌^◌, ◌≤◌, ◌≤ℤ◌, unsigned_abs};
ghost use Rattle.interval_specs.specs.Ends.{IsHeld};
ghost use Rattle.interval_specs.specs.Roots.{sqrt_at, cbrt_at};

use crate::cube::{cbrt_above_end, cbrt_floor};
use crate::square::{sqrt_above_end, sqrt_floor};
use fix_bounds::{Iv, Scale, unit};

/// The square root of an interval that is not below 0.
pub fn sqrt_iv<S: Scale>(x: Iv<S>) -> Iv<S>
    requires { pos 0 ≤ℤ x.lo }
    ensures is { result ≡ sqrt_at S.unit x }
    ensures held { IsHeld result }
{
    let low = times_unit::<S>(x.lo());
    let high = times_unit::<S>(x.hi());
    let below = sqrt_floor(low);
    let above = sqrt_above_end(below, low, high);
    Iv::of_ends(below as i128, above as i128)
}

/// The cube root of an interval that is not below 0.
pub fn cbrt_iv<S: Scale>(x: Iv<S>) -> Iv<S>
    requires not_below { pos 0 ≤ℤ x.lo }
    requires magnitude { x.hi ≤ℤ pos (10 * S.unit) }
    ensures is { result ≡ cbrt_at S.unit x }
    ensures held { IsHeld result }
{
    let low = times_unit_twice::<S>(x.lo());
    let high = times_unit_twice::<S>(x.hi());
    let below = cbrt_floor(low);
    let above = cbrt_above_end(below, low, high);
    Iv::of_ends(below as i128, above as i128)
}

/// The number under the square root of an end: the end, which is not below 0, times the scale's
/// unit.
fn times_unit<S: Scale>(end: i128) -> u128
    requires not_below { pos 0 ≤ℤ end }
    requires magnitude { unsigned_abs end ≤ 10 ^ 25 }
    ensures { result ≡ unsigned_abs end * S.unit }
{
    end as u128 * u128::from(unit::<S>())
}

/// The number under the cube root of an end: its magnitude times the square of the scale's unit.
fn times_unit_twice<S: Scale>(end: i128) -> u128
    requires { unsigned_abs end ≤ 10 * S.unit }
    ensures { result ≡ unsigned_abs end * (S.unit * S.unit) }
{
    cbrt_radicand::<S>(end.unsigned_abs())
}

/// `t` times the square of the scale's unit: its cube root is that of `t` parts of the scale,
/// counted in parts.
pub fn cbrt_radicand<S: Scale>(t: u128) -> u128
    requires { t ≤ 10 * S.unit }
    ensures { result ≡ t * (S.unit * S.unit) }
{
    let parts = u128::from(unit::<S>());
    t * (parts * parts)
}
