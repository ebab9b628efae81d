//! The differences of a sample from a standard, whose values have the index 1.
ghost use Rattle.std.specs.Prelude.{◌≡◌, ℕ, ◌*◌, ◌^◌};
ghost use Rattle.interval_specs.specs.Ends.{IsHeld};
ghost use Rattle.interval_specs.specs.Ranges.{MagnitudeUpTo, UpTo};
ghost use Rattle.cielab_bounds.specs.Lab.{lab_ends};
ghost use Rattle.lab_parts.specs.Parts.{chroma_difference, hue_difference_square, length_at, lightness_difference};

use crate::opponents::{chroma, chroma_square};
use cielab_bounds::Lab;
use fix_bounds::{Iv, Scale};
use root_bounds::sqrt_iv;

/// dL, the difference of lightness.
pub fn lightness_difference<S: Scale>(l1: Iv<S>, sample: &Lab<S>) -> Iv<S>
    requires { MagnitudeUpTo (1000 * S.unit) l1 }
    ensures is { result ≡ lightness_difference l1 (lab_ends sample.now) }
    ensures range { MagnitudeUpTo (2000 * S.unit) result }
{
    sample.l.sub(l1)
}

/// dC, the difference of chroma.
pub fn chroma_difference<S: Scale>(c1: Iv<S>, sample: &Lab<S>) -> Iv<S>
    requires { UpTo (1415 * S.unit) c1 }
    ensures is { result ≡ chroma_difference S.unit c1 (lab_ends sample.now) }
    ensures range { MagnitudeUpTo (1415 * S.unit) result }
{
    chroma(sample.a, sample.b).sub(c1)
}

/// dH^2, the square of the difference of hue, from dC: da^2 + db^2 - dC^2, which is not below 0.
pub fn hue_difference_square<S: Scale>(a1: Iv<S>, b1: Iv<S>, dc: Iv<S>, sample: &Lab<S>) -> Iv<S>
    requires a { MagnitudeUpTo (1000 * S.unit) a1 }
    requires b { MagnitudeUpTo (1000 * S.unit) b1 }
    requires dc { MagnitudeUpTo (1415 * S.unit) dc }
    ensures is { result ≡ hue_difference_square S.unit a1 b1 dc (lab_ends sample.now) }
    ensures range { UpTo (8 * 10 ^ 6 * S.unit) result }
{
    let all = chroma_square(sample.a.sub(a1), sample.b.sub(b1));
    all.sub(dc.square()).cut_low(0)
}

/// dE: the square root of the squares of the terms of lightness and chroma and the square of the
/// term of the hue.
pub fn length<S: Scale>(lightness: Iv<S>, chroma: Iv<S>, hue_square: Iv<S>) -> Iv<S>
    requires lightness { MagnitudeUpTo (40000 * S.unit) lightness }
    requires chroma { MagnitudeUpTo (40000 * S.unit) chroma }
    requires hue { UpTo (170 * 10 ^ 6 * S.unit) hue_square }
    ensures is { result ≡ length_at S.unit lightness chroma hue_square }
    ensures held { IsHeld result }
{
    let both = lightness.square().add(chroma.square());
    sqrt_iv(both.add(hue_square))
}
