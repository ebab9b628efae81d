ghost use Rattle.std.specs.Prelude.{◌≡◌, ℕ, ◌*◌, ◌^◌};
ghost use Rattle.interval_specs.specs.Ends.{IsHeld};
ghost use Rattle.interval_specs.specs.Ranges.{MagnitudeUpTo, UpTo, AtLeast};
ghost use Rattle.interval_specs.specs.Operations.{fraction_of, quotient_at, square_at};
ghost use Rattle.cielab_bounds.specs.Lab.{lab_ends};
ghost use Rattle.cmc_bounds.specs.Standard.{standard_ends};
ghost use Rattle.cmc_specs.specs.Cmc.{kept_difference, standard_at};

use crate::chroma::{chroma_weight, hue_share};
use crate::hue::{hue_factor, hue_weight};
use crate::lightness::lightness_weight;
use crate::rule::Cmc;
use crate::standard::Standard;
use cielab_bounds::Lab;
use fix_bounds::{Iv, Scale};
use lab_parts::{
    chroma_difference, chroma_square, hue_difference_square, length, lightness_difference,
};
use root_bounds::sqrt_iv;

/// The values of a standard that its differences need.
pub(crate) fn keep<S: Scale>(standard: &Lab<S>) -> Standard<S>
    ensures { standard_ends result ≡ standard_at S.unit (lab_ends standard.now) }
{
    let square = chroma_square(standard.a, standard.b);
    let c1 = sqrt_iv(square);
    let sc = chroma_weight(c1);
    let t = hue_factor(standard.a, standard.b, c1);
    Standard {
        l1: standard.l,
        a1: standard.a,
        b1: standard.b,
        c1,
        sl: lightness_weight(standard.l),
        sc,
        sh: hue_weight(sc, hue_share(square), t),
    }
}

/// The difference of a sample from the standard whose values [`Standard`] holds.
pub fn delta<S: Scale>(rule: &Cmc, standard: &Standard<S>, sample: &Lab<S>) -> Iv<S>
    ensures is { result
        ≡ kept_difference S.unit rule.now.l10 rule.now.c10
        (standard_ends standard.now) (lab_ends sample.now) }
    ensures held { IsHeld result }
{
    let dl = lightness_difference(standard.l1, sample);
    let dc = chroma_difference(standard.c1, sample);
    let hue_square = hue_difference_square(standard.a1, standard.b1, dc, sample);
    let lightness = lightness_term(rule, standard, dl);
    let chroma = chroma_term(rule, standard, dc);
    length(lightness, chroma, hue_term(hue_square, standard))
}

/// dL over l S_L.
fn lightness_term<S: Scale>(rule: &Cmc, standard: &Standard<S>, delta: Iv<S>) -> Iv<S>
    requires { MagnitudeUpTo (2000 * S.unit) delta }
    ensures is { result ≡ quotient_at S.unit delta (fraction_of rule.now.l10 10 standard.now.sl) }
    ensures range { MagnitudeUpTo (40000 * S.unit) result }
{
    delta.div(standard.sl.ratio_up(rule.l10 as u64, 10))
}

/// dC over c S_C.
fn chroma_term<S: Scale>(rule: &Cmc, standard: &Standard<S>, delta: Iv<S>) -> Iv<S>
    requires { MagnitudeUpTo (1415 * S.unit) delta }
    ensures is { result ≡ quotient_at S.unit delta (fraction_of rule.now.c10 10 standard.now.sc) }
    ensures range { MagnitudeUpTo (23000 * S.unit) result }
{
    delta.div(standard.sc.ratio_up(rule.c10 as u64, 10))
}

/// S_H^2.
fn hue_divisor<S: Scale>(standard: &Standard<S>) -> Iv<S>
    ensures is { result ≡ square_at S.unit standard.now.sh }
    ensures least { AtLeast 48 1000 S.unit result }
{
    standard.sh.square()
}

/// dH^2 over S_H^2.
fn hue_term<S: Scale>(square: Iv<S>, standard: &Standard<S>) -> Iv<S>
    requires { UpTo (8 * 10 ^ 6 * S.unit) square }
    ensures is { result ≡ quotient_at S.unit square (square_at S.unit standard.now.sh) }
    ensures range { UpTo (170 * 10 ^ 6 * S.unit) result }
{
    square.div(hue_divisor(standard))
}
