ghost use Rattle.std.specs.Prelude.{◌≡◌, ℕ, ◌*◌, ◌^◌, ◌≤◌};
ghost use Rattle.interval_specs.specs.Ends.{IsHeld};
ghost use Rattle.interval_specs.specs.Ranges.{MagnitudeUpTo, UpTo, AtLeast};
ghost use Rattle.interval_specs.specs.Operations.{quotient_at, square_at};
ghost use Rattle.cielab_bounds.specs.Lab.{lab_ends};
ghost use Rattle.delta_specs.specs.Cie94.{kept_difference, lightness_term, standard_at, weight_at};
ghost use Rattle.other_deltas.specs.Kinds.{application_of};
ghost use Rattle.other_deltas.specs.Standard.{standard_ends};

use crate::kind::Kind94;
use crate::rule::Cie94;
use crate::standard::Standard94;
use cielab_bounds::Lab;
use fix_bounds::{Iv, Scale};
use lab_parts::{chroma, chroma_difference, hue_difference_square, length, lightness_difference};

/// The values of a standard that its differences need.
pub(crate) fn keep<S: Scale>(rule: &Cie94, standard: &Lab<S>) -> Standard94<S>
    ensures { standard_ends result
        ≡ standard_at (application_of rule.now.kind) S.unit (lab_ends standard.now) }
{
    let c1 = chroma(standard.a, standard.b);
    let sc = weight(rule.kind.k1(), c1);
    let sh = weight(rule.kind.k2(), c1);
    Standard94 {
        l1: standard.l,
        a1: standard.a,
        b1: standard.b,
        c1,
        sc,
        sh,
        sh_square: weight_square(sh),
    }
}

/// S_C or S_H: 1 + k C1, with the constant k in thousandths.
fn weight<S: Scale>(k: u64, c1: Iv<S>) -> Iv<S>
    requires k { k ≤ 48 }
    requires chroma { UpTo (1415 * S.unit) c1 }
    ensures is { result ≡ weight_at S.unit k c1 }
    ensures range { UpTo (70 * S.unit) result }
    ensures least { AtLeast 1 1 S.unit result }
{
    let one: Iv<S> = Iv::of_ends(S::UNIT, S::UNIT);
    one.add(c1.ratio_up(k, 1000))
}

/// S_H^2.
fn weight_square<S: Scale>(sh: Iv<S>) -> Iv<S>
    requires range { UpTo (70 * S.unit) sh }
    requires least { AtLeast 1 1 S.unit sh }
    ensures is { result ≡ square_at S.unit sh }
    ensures range { UpTo (4900 * S.unit) result }
    ensures least { AtLeast 1 2 S.unit result }
{
    sh.square()
}

/// The difference of a sample from the standard whose values [`Standard94`] holds, which were made
/// by the same rule.
pub fn delta<S: Scale>(rule: &Cie94, standard: &Standard94<S>, sample: &Lab<S>) -> Iv<S>
    ensures is { result
        ≡ kept_difference (application_of rule.now.kind) S.unit
        (standard_ends standard.now) (lab_ends sample.now) }
    ensures held { IsHeld result }
{
    let dl = lightness_difference(standard.l1, sample);
    let dc = chroma_difference(standard.c1, sample);
    let hue_square = hue_difference_square(standard.a1, standard.b1, dc, sample);
    let lightness = lightness_term(rule.kind, dl);
    let chroma = chroma_term(standard, dc);
    length(lightness, chroma, hue_term(hue_square, standard))
}

/// dL, or half of it.
fn lightness_term<S: Scale>(kind: Kind94, delta: Iv<S>) -> Iv<S>
    requires { MagnitudeUpTo (2000 * S.unit) delta }
    ensures is { result ≡ lightness_term (application_of kind).halved delta }
    ensures range { MagnitudeUpTo (2000 * S.unit) result }
{
    if kind.is_halved() {
        delta.ratio_up(1, 2)
    } else {
        delta
    }
}

/// dC over S_C.
fn chroma_term<S: Scale>(standard: &Standard94<S>, delta: Iv<S>) -> Iv<S>
    requires { MagnitudeUpTo (1415 * S.unit) delta }
    ensures is { result ≡ quotient_at S.unit delta standard.now.sc }
    ensures range { MagnitudeUpTo (1415 * S.unit) result }
{
    delta.div(standard.sc)
}

/// dH^2 over S_H^2.
fn hue_term<S: Scale>(square: Iv<S>, standard: &Standard94<S>) -> Iv<S>
    requires { UpTo (8 * 10 ^ 6 * S.unit) square }
    ensures is { result ≡ quotient_at S.unit square standard.now.sh_square }
    ensures range { UpTo (170 * 10 ^ 6 * S.unit) result }
{
    square.div(standard.sh_square)
}
