ghost use Rattle.std.specs.Prelude.{◌≡◌, ℕ, pos, ◌*◌, ◌≤◌, ◌≤ℤ◌, unsigned_abs};
ghost use Rattle.interval_specs.specs.Ends.{IsHeld};
ghost use Rattle.interval_specs.specs.Ranges.{UpTo};
ghost use Rattle.cielab_bounds.specs.Cielab.{f_at, f_down, f_up, is_on_root, linear};

use fix_bounds::{Iv, Scale, unit};
use root_bounds::{cbrt_ceil, cbrt_floor, cbrt_radicand};

/// CIELAB's function f of a ratio: the cube root above (6/29)^3, and below it the tangent at that
/// point.
pub fn f_iv<S: Scale>(t: Iv<S>) -> Iv<S>
    requires not_below { pos 0 ≤ℤ t.lo }
    requires magnitude { t.hi ≤ℤ pos (3 * S.unit) }
    ensures is { result ≡ f_at S.unit t }
    ensures range { UpTo (2 * S.unit) result }
    ensures held { IsHeld result }
{
    let low = t.lo().unsigned_abs();
    let high = t.hi().unsigned_abs();
    let least = lower_end::<S>(low, on_root::<S>(low));
    let greatest = upper_end::<S>(high, on_root::<S>(high));
    Iv::of_ends(least as i128, greatest as i128)
}

/// f of a lower end, rounded down; `root` says whether f takes the cube root there.
fn lower_end<S: Scale>(t: u128, root: bool) -> u128
    requires magnitude { t ≤ 3 * S.unit }
    requires part { root ≡ is_on_root S.unit t }
    ensures is { pos result ≡ f_down S.unit t }
    ensures small { result ≤ 2 * S.unit }
{
    if root {
        cbrt_floor(cbrt_radicand::<S>(t))
    } else {
        dividend::<S>(t) / 3132
    }
}

/// f of an upper end, rounded up; `root` says whether f takes the cube root there.
fn upper_end<S: Scale>(t: u128, root: bool) -> u128
    requires magnitude { t ≤ 3 * S.unit }
    requires part { root ≡ is_on_root S.unit t }
    ensures is { pos result ≡ f_up S.unit t }
    ensures small { result ≤ 2 * S.unit }
{
    if root {
        cbrt_ceil(cbrt_radicand::<S>(t))
    } else {
        dividend::<S>(t).div_ceil(3132)
    }
}

/// Does f take the cube root of this ratio?
fn on_root<S: Scale>(t: u128) -> bool
    requires { t ≤ 3 * S.unit }
    ensures { result ≡ is_on_root S.unit t }
{
    216 * u128::from(unit::<S>()) < 24389 * t
}

/// The linear part of f, times 3132.
fn dividend<S: Scale>(t: u128) -> u128
    requires { t ≤ 3 * S.unit }
    ensures { result ≡ linear S.unit t }
{
    24389 * t + 432 * u128::from(unit::<S>())
}
