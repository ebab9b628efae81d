ghost use Rattle.std.specs.Prelude.{◌≡◌, ℕ, ◌+◌, ◌*◌, ◌^◌, ◌≤◌, unsigned_abs};
ghost use Rattle.interval_specs.specs.Ends.{IsHeld};
ghost use Rattle.interval_specs.specs.Ranges.{UpTo, AtLeast};
ghost use Rattle.cmc_specs.specs.Cmc.{chroma_denominator, chroma_gain, chroma_numerator, chroma_weight, fourth_power_share, hue_share};

use crate::quotient::{Quotient, outward, times_unit};
use fix_bounds::{Iv, Scale, unit};
use root_bounds::sqrt_iv;

/// 0.0638 t / (1 + 0.0131 t) for an end t of the chroma, as a quotient of whole numbers.
fn gain_at<S: Scale>(t: i128) -> Quotient
    requires { unsigned_abs t ≤ 1415 * S.unit }
    ensures numerator { result.numerator ≡ chroma_numerator S.unit (unsigned_abs t) }
    ensures denominator { result.denominator ≡ chroma_denominator S.unit (unsigned_abs t) }
{
    let magnitude = t.unsigned_abs();
    Quotient {
        numerator: times_unit::<S>(638 * magnitude),
        denominator: 10_000 * u128::from(unit::<S>()) + 131 * magnitude,
    }
}

/// The part of S_C that grows with the chroma: 0.0638 C1 / (1 + 0.0131 C1).
fn chroma_gain<S: Scale>(c1: Iv<S>) -> Iv<S>
    requires { UpTo (1415 * S.unit) c1 }
    ensures is { result ≡ chroma_gain S.unit c1 }
    ensures range { UpTo (5 * S.unit) result }
{
    let low = gain_at::<S>(c1.lo());
    let high = gain_at::<S>(c1.hi());
    outward(low, high)
}

/// S_C: 0.638 + 0.0638 C1 / (1 + 0.0131 C1).
pub(crate) fn chroma_weight<S: Scale>(c1: Iv<S>) -> Iv<S>
    requires { UpTo (1415 * S.unit) c1 }
    ensures is { result ≡ chroma_weight S.unit c1 }
    ensures range { UpTo (6 * S.unit) result }
    ensures least { AtLeast 637 1000 S.unit result }
{
    let least: Iv<S> = Iv::of_ratio(638, 1000);
    least.add(chroma_gain(c1))
}

/// x / (x + 1900) for an end x of a fourth power, as a quotient of whole numbers.
fn share_at<S: Scale>(x: i128) -> Quotient
    requires { unsigned_abs x ≤ 4 * 10 ^ 12 * S.unit }
    ensures numerator { result.numerator ≡ unsigned_abs x * S.unit }
    ensures denominator { result.denominator ≡ unsigned_abs x + 1900 * S.unit }
{
    let magnitude = x.unsigned_abs();
    Quotient {
        numerator: times_unit::<S>(magnitude),
        denominator: magnitude + 1900 * u128::from(unit::<S>()),
    }
}

/// x / (x + 1900) for a fourth power x.
fn fourth_power_share<S: Scale>(x: Iv<S>) -> Iv<S>
    requires { UpTo (4 * 10 ^ 12 * S.unit) x }
    ensures is { result ≡ fourth_power_share S.unit x }
    ensures range { UpTo S.unit result }
{
    let low = share_at::<S>(x.lo());
    let high = share_at::<S>(x.hi());
    outward(low, high)
}

/// F, the square root of C1^4 / (C1^4 + 1900), from the square of the chroma.
pub(crate) fn hue_share<S: Scale>(p1: Iv<S>) -> Iv<S>
    requires { UpTo (2 * 10 ^ 6 * S.unit) p1 }
    ensures is { result ≡ hue_share S.unit p1 }
    ensures range { UpTo S.unit result }
{
    sqrt_iv(fourth_power_share(p1.square()))
}
