ghost use Rattle.std.specs.Prelude.{◌≡◌, ℕ, ◌*◌, ◌^◌, ◌≤◌, unsigned_abs};
ghost use Rattle.interval_specs.specs.Ranges.{MagnitudeUpTo, UpTo, AtLeast};
ghost use Rattle.cmc_specs.specs.Cmc.{high_weight, is_dark, is_light, lightness_denominator, lightness_numerator, lightness_weight, low_weight};

use crate::quotient::{Quotient, outward, times_unit};
use fix_bounds::{Iv, Scale, unit};

/// 0.040975 t / (1 + 0.01765 t) for an end t of the lightness, as a quotient of whole numbers.
fn high_weight_at<S: Scale>(t: i128) -> Quotient
    requires { unsigned_abs t ≤ 1000 * S.unit }
    ensures numerator { result.numerator ≡ lightness_numerator S.unit (unsigned_abs t) }
    ensures denominator { result.denominator ≡ lightness_denominator S.unit (unsigned_abs t) }
{
    let magnitude = t.unsigned_abs();
    Quotient {
        numerator: times_unit::<S>(40_975 * magnitude),
        denominator: 1_000_000 * u128::from(unit::<S>()) + 17_650 * magnitude,
    }
}

/// 0.040975 L1 / (1 + 0.01765 L1), which is S_L of lightness 16 or more; an end of L1 below 16 is
/// raised to 16.
fn high_weight<S: Scale>(l1: Iv<S>) -> Iv<S>
    requires { MagnitudeUpTo (1000 * S.unit) l1 }
    ensures is { result ≡ high_weight S.unit l1 }
    ensures range { UpTo (3 * S.unit) result }
{
    let raised = l1.cut_low(16);
    let low = high_weight_at::<S>(raised.lo());
    let high = high_weight_at::<S>(raised.hi());
    outward(low, high)
}

/// S_L of dark colours, of lightness below 16: 0.511.
fn low_weight<S: Scale>() -> Iv<S>
    ensures is { result ≡ low_weight S.unit }
    ensures range { UpTo (3 * S.unit) result }
{
    Iv::of_ratio(511, 1000)
}

/// Is the whole interval of the lightness at 16 or above?
fn is_light<S: Scale>(l1: Iv<S>) -> bool
    ensures { result ≡ is_light S.unit l1 }
{
    16 * S::UNIT <= l1.lo()
}

/// Is the whole interval of the lightness below 16?
fn is_dark<S: Scale>(l1: Iv<S>) -> bool
    ensures { result ≡ is_dark S.unit l1 }
{
    l1.hi() < 16 * S::UNIT
}

/// S_L, or the hull of both forms where the lightness has ends on both sides of 16.
pub(crate) fn lightness_weight<S: Scale>(l1: Iv<S>) -> Iv<S>
    requires { MagnitudeUpTo (1000 * S.unit) l1 }
    ensures is { result ≡ lightness_weight S.unit l1 }
    ensures range { UpTo (3 * S.unit) result }
    ensures least { AtLeast 51 100 S.unit result }
{
    if is_light(l1) {
        high_weight(l1)
    } else if is_dark(l1) {
        low_weight()
    } else {
        high_weight(l1).hull(low_weight())
    }
}
