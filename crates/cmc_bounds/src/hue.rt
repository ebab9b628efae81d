ghost use Rattle.std.specs.Prelude.{◌≡◌, ℕ, ℤ, pos, ◌*◌, ◌^◌, ◌<◌, ◌≤◌};
ghost use Rattle.interval_specs.specs.Ends.{one_at};
ghost use Rattle.interval_specs.specs.Ranges.{MagnitudeUpTo, UpTo, AtLeast};
ghost use Rattle.interval_specs.specs.Operations.{difference_of};
ghost use Rattle.lab_parts.specs.Chroma.{IsChroma};
ghost use Rattle.cmc_specs.specs.Cmc.{along_12, along_35, cosine_magnitude, first_form, hue_factor, hue_sum_15, hue_sum_16, hue_weight, is_inside, is_outside, second_form};

use crate::angles::{COS_12, COS_15, COS_16, SIN_12, SIN_15, SIN_16, along_35, projection};
use fix_bounds::{Iv, Scale};

/// The magnitude of a cosine, from its product with the chroma: the interval from 0 to 1 where the
/// chroma may be 0.
fn cosine_magnitude<S: Scale>(product: Iv<S>, c1: Iv<S>) -> Iv<S>
    requires product { MagnitudeUpTo (2000 * S.unit) product }
    requires chroma { IsChroma S.unit c1 }
    ensures is { result ≡ cosine_magnitude S.unit product c1 }
    ensures range { UpTo S.unit result }
{
    if c1.lo() == 0 {
        Iv::of_ends(0, S::UNIT)
    } else {
        product.abs().div(c1).cut_high(1)
    }
}

/// T for hues outside 164 to 345 degrees: 0.36 + |0.4 cos(h1 + 35)|.
fn first_form<S: Scale>(a: Iv<S>, b: Iv<S>, c1: Iv<S>) -> Iv<S>
    requires a { MagnitudeUpTo (1000 * S.unit) a }
    requires b { MagnitudeUpTo (1000 * S.unit) b }
    requires chroma { IsChroma S.unit c1 }
    ensures is { result ≡ first_form S.unit a b c1 }
    ensures range { UpTo S.unit result }
{
    let magnitude = cosine_magnitude(along_35(a, b), c1);
    let least: Iv<S> = Iv::of_ratio(36, 100);
    least.add(magnitude.ratio_up(4, 10))
}

/// T for hues from 164 to 345 degrees: 0.56 + |0.2 cos(h1 + 168)|.
fn second_form<S: Scale>(a: Iv<S>, b: Iv<S>, c1: Iv<S>) -> Iv<S>
    requires a { MagnitudeUpTo (1000 * S.unit) a }
    requires b { MagnitudeUpTo (1000 * S.unit) b }
    requires chroma { IsChroma S.unit c1 }
    ensures is { result ≡ second_form S.unit a b c1 }
    ensures range { UpTo S.unit result }
{
    let magnitude = cosine_magnitude(projection(a, COS_12, b, SIN_12), c1);
    let least: Iv<S> = Iv::of_ratio(56, 100);
    least.add(magnitude.ratio_up(2, 10))
}

/// Is it certain that the hue lies outside 164 to 345 degrees? Both sums are then above 0.
fn is_outside<S: Scale>(p: Iv<S>, r: Iv<S>) -> bool
    ensures { result ≡ is_outside p r }
{
    0 < p.lo() && 0 < r.lo()
}

/// Is it certain that the hue lies from 164 to 345 degrees? One of the sums is then not above 0.
fn is_inside<S: Scale>(p: Iv<S>, r: Iv<S>) -> bool
    ensures { result ≡ is_inside p r }
{
    p.hi() <= 0 || r.hi() <= 0
}

/// T, or the hull of both forms where it is uncertain which of them applies.
pub(crate) fn hue_factor<S: Scale>(a: Iv<S>, b: Iv<S>, c1: Iv<S>) -> Iv<S>
    requires a { MagnitudeUpTo (1000 * S.unit) a }
    requires b { MagnitudeUpTo (1000 * S.unit) b }
    requires chroma { IsChroma S.unit c1 }
    ensures is { result ≡ hue_factor S.unit a b c1 }
    ensures range { UpTo S.unit result }
    ensures least { AtLeast 35 100 S.unit result }
{
    let p = projection(a, SIN_15, b, COS_15);
    let r = projection(a, SIN_16, b, COS_16);
    if is_outside(p, r) {
        first_form(a, b, c1)
    } else if is_inside(p, r) {
        second_form(a, b, c1)
    } else {
        first_form(a, b, c1).hull(second_form(a, b, c1))
    }
}

/// 1 - x.
fn rest<S: Scale>(x: Iv<S>) -> Iv<S>
    requires { UpTo S.unit x }
    ensures is { result ≡ difference_of (one_at S.unit) x }
    ensures range { UpTo S.unit result }
{
    let one: Iv<S> = Iv::of_ends(S::UNIT, S::UNIT);
    one.sub(x)
}

/// S_H: S_C (1 - F (1 - T)).
pub(crate) fn hue_weight<S: Scale>(sc: Iv<S>, f: Iv<S>, t: Iv<S>) -> Iv<S>
    requires sc { UpTo (6 * S.unit) sc }
    requires sc_least { AtLeast 637 1000 S.unit sc }
    requires f { UpTo S.unit f }
    requires t { UpTo S.unit t }
    requires t_least { AtLeast 35 100 S.unit t }
    ensures is { result ≡ hue_weight S.unit sc f t }
    ensures range { UpTo (6 * S.unit) result }
    ensures least { AtLeast 22 100 S.unit result }
{
    let taken = f.mul(rest(t));
    sc.mul(rest(taken))
}
