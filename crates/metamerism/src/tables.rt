//! Whether tables of weights are the same.

ghost use Rattle.std.specs.Prelude.{◌≡◌, ◌↔◌, true};
ghost use Rattle.metamerism.specs.Kept.{first_weights_or};

use crate::one_light::Light;
use cielab_bounds::Difference;
use fix_bounds::Scale;
use spectral_tables::Weights;

/// Are the weights the same?
fn are_same(one: &Weights, other: &Weights) -> bool
    ensures { (result ≡ true) ↔ (one.now ≡ other.now) }
{
    if one.waves() != other.waves() {
        return false;
    }
    if one.white() != other.white() {
        return false;
    }
    for wave in 0..one.waves() {
        if one.at(wave) != other.at(wave) {
            return false;
        }
    }
    true
}

/// Are samples under the light not corrected, or corrected by these weights?
pub(crate) fn is_corrected_by<S: Scale, D: Difference<S>>(
    light: &Light<S, D>,
    first: &Weights,
) -> bool
    ensures { (result ≡ true) ↔ (first_weights_or first.now light.now.correction ≡ first.now) }
{
    match &light.correction {
        Some(correction) => are_same(&correction.first, first),
        None => true,
    }
}
