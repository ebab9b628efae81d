//! Comparing samples with a standard under lights.

ghost use Rattle.std.specs.Prelude.{◌≡◌, ℕ, ◌-◌, ◌<◌, ◌≤◌, true, List, Option, None, Some, length, slice_get};
ghost use Rattle.interval_specs.specs.Ends.{Ends, IsHeld};
ghost use Rattle.fix_bounds.specs.Ratios.{ratio_ends};
ghost use Rattle.cielab_bounds.specs.Cielab.{lab_at};
ghost use Rattle.cielab_bounds.specs.Lab.{lab_ends};
ghost use Rattle.spectral_tables.specs.WeightTable.{HasItemEachWave};
ghost use Rattle.tristimulus.specs.Ratios.{ratios_at};
ghost use Rattle.metamerism.specs.Difference.{colour_under, light_difference};
ghost use Rattle.metamerism.specs.Kept.{compared_ratios, first_weights_or};
ghost use Rattle.metamerism.specs.Laws.{LightEnclosesFiner, LightEnclosesNarrower};
ghost use Rattle.metamerism.specs.LightOf.{IsLightOf};
ghost use Rattle.metamerism.specs.Lights.{FitsLights, delta_under, deltas_under, lights_of};
ghost use Rattle.metamerism.specs.Shared.{first_weights};

use crate::correcting::corrected_ratios;
use crate::correction::Correction;
use crate::lights::Lights;
use crate::one_light::Light;
use crate::outcomes::Deltas;
use arrayvec::ArrayVec;
use cielab_bounds::{Difference, Lab, lab};
use fix_bounds::{Iv, Ratios, Scale};
use spectral_tables::{Spectrum, Weights};
use tristimulus::ratios;

/// The colour of a spectrum under the weights of a light. Both have the same number of wavelengths.
#[tactic(auto, unfolding(crate::specs::Difference::colour_under))]
fn colour<S: Scale>(weights: &Weights, spectrum: &Spectrum<S>) -> Lab<S>
    requires { HasItemEachWave weights.now spectrum.now }
    ensures { lab_ends result ≡ colour_under weights.now S.unit spectrum.now }
{
    lab(&ratios(spectrum, weights))
}

/// The light with these weights, tolerance and rule, for the standard of this spectrum, which
/// corrects samples so.
fn light_with<S: Scale, D: Difference<S>>(
    weights: &Weights,
    tolerance: u32,
    rule: D,
    standard: &Spectrum<S>,
    correction: Option<Correction<S>>,
) -> Light<S, D>
    requires tolerance { tolerance ≤ 100000 }
    requires waves { HasItemEachWave weights.now standard.now }
    requires paired { length (first_weights_or weights.now correction).weights
        ≡ length weights.now.weights }
    ensures made { IsLightOf result weights.now tolerance rule standard.now }
    ensures correction { result.correction ≡ correction }
{
    let standard = colour(weights, standard);
    let kept = rule.keep(&standard);
    Light {
        weights: weights.clone().unwrap(),
        tolerance,
        rule,
        standard,
        kept,
        correction,
    }
}

/// The light with these weights and a tolerance in thousandths, under which samples are compared
/// with the standard of this spectrum by the rule.
pub fn light<S: Scale, D: Difference<S>>(
    weights: &Weights,
    tolerance: u32,
    rule: D,
    standard: &Spectrum<S>,
) -> Light<S, D>
    requires tolerance { tolerance ≤ 100000 }
    requires waves { HasItemEachWave weights.now standard.now }
    ensures made { IsLightOf result weights.now tolerance rule standard.now }
    ensures delta { (sample : List Ends) → delta_under result sample
        ≡ light_difference (D.value rule) None weights.now S.unit standard.now sample }
{
    light_with(weights, tolerance, rule, standard, None)
}

/// The same for samples that are corrected by what they and the standard have under the first
/// light, which has the weights `first`. The standard's ratios under it are computed once.
pub fn corrected_light<S: Scale, D: Difference<S>>(
    weights: &Weights,
    tolerance: u32,
    rule: D,
    standard: &Spectrum<S>,
    first: &Weights,
) -> Light<S, D>
    requires tolerance { tolerance ≤ 100000 }
    requires waves { HasItemEachWave weights.now standard.now }
    requires first { HasItemEachWave first.now standard.now }
    ensures made { IsLightOf result weights.now tolerance rule standard.now }
    ensures delta { (sample : List Ends) → delta_under result sample
        ≡ light_difference (D.value rule) (Some first.now) weights.now S.unit standard.now sample }
    ensures finer { LightEnclosesFiner (D.value rule) (Some first.now) weights.now S.unit
        standard.now (delta_under result) }
    ensures narrower { LightEnclosesNarrower S.unit (delta_under result) }
{
    // called only for their contracts: the weights and the standard satisfy their invariants
    let _ = weights.waves();
    let _ = first.waves();
    let _ = standard.waves();
    let correction = Correction {
        first: first.clone().unwrap(),
        standard: ratios(standard, first),
    };
    light_with(weights, tolerance, rule, standard, Some(correction))
}

/// The colour of a sample as it is compared: by the ratios `own`, or by those corrected by the
/// ratios that it has under the first light.
fn compared_colour<S: Scale>(
    correction: &Option<Correction<S>>,
    own: &Ratios<S>,
    first: &Ratios<S>,
) -> Lab<S>
    ensures { lab_ends result ≡ lab_at S.unit
        (compared_ratios correction.now (ratio_ends own.now) (ratio_ends first.now)) }
{
    match correction {
        Some(correction) => lab(&corrected_ratios(own, &correction.standard, first)),
        None => lab(own),
    }
}

/// The difference under the light of a sample that has the ratios `own` under it. Those that it has
/// under the first light count only if the light corrects samples.
fn delta_by<S: Scale, D: Difference<S>>(
    light: &Light<S, D>,
    own: &Ratios<S>,
    first: &Ratios<S>,
) -> Iv<S>
    ensures is { result ≡ D.value light.now.rule S.unit (lab_ends light.now.standard)
        (lab_at S.unit
        (compared_ratios light.now.correction (ratio_ends own.now) (ratio_ends first.now))) }
    ensures held { IsHeld result }
{
    let sample = compared_colour(&light.correction, own, first);
    light.rule.delta(&light.kept, &sample)
}

/// The difference under the light of a sample that has the ratios `own` under it.
fn delta_alone<S: Scale, D: Difference<S>>(
    light: &Light<S, D>,
    sample: &Spectrum<S>,
    own: &Ratios<S>,
) -> Iv<S>
    requires waves { HasItemEachWave light.now.weights sample.now }
    requires own { ratio_ends own.now ≡ ratios_at S.unit sample.now light.now.weights }
    ensures is { result ≡ delta_under light.now sample.now }
    ensures held { IsHeld result }
{
    let _ = light.weights.waves(); // called only for its contract: the weights' invariant
    match &light.correction {
        Some(correction) => delta_by(light, own, &ratios(sample, &correction.first)),
        None => delta_by(light, own, own),
    }
}

/// The difference of a sample from the standard under the light.
pub fn delta_of<S: Scale, D: Difference<S>>(light: &Light<S, D>, sample: &Spectrum<S>) -> Iv<S>
    requires { HasItemEachWave light.now.weights sample.now }
    ensures is { result ≡ delta_under light.now sample.now }
    ensures held { IsHeld result }
{
    delta_alone(light, sample, &ratios(sample, &light.weights))
}

/// The ratios of a sample under the first of the lights, which [`delta_with`] takes.
pub fn first_ratios<S: Scale, D: Difference<S>>(
    lights: &Lights<S, D>,
    sample: &Spectrum<S>,
) -> Ratios<S>
    requires { FitsLights lights.now sample.now }
    ensures { ratio_ends result ≡ ratios_at S.unit sample.now (first_weights (lights_of lights.now)) }
{
    ratios(sample, &lights.each.first().weights)
}

/// The ratios of a sample under a light: those under the first light, if it is that one.
fn own_ratios<S: Scale, D: Difference<S>>(
    light: &Light<S, D>,
    is_first: bool,
    sample: &Spectrum<S>,
    first: &Ratios<S>,
) -> Ratios<S>
    requires waves { HasItemEachWave light.now.weights sample.now }
    requires first { is_first ≡ true
        → ratio_ends first.now ≡ ratios_at S.unit sample.now light.now.weights }
    ensures { ratio_ends result ≡ ratios_at S.unit sample.now light.now.weights }
{
    if is_first {
        *first
    } else {
        ratios(sample, &light.weights)
    }
}

/// The difference of a sample from the standard under the light with a number, counted from 1, for
/// a caller that goes from light to light: what lights share of the sample is computed once, by
/// [`first_ratios`].
pub fn delta_with<S: Scale, D: Difference<S>>(
    lights: &Lights<S, D>,
    number: u8,
    sample: &Spectrum<S>,
    first: &Ratios<S>,
) -> Iv<S>
    requires some { 0 < number }
    requires there { number ≤ length (lights_of lights.now) }
    requires fits { FitsLights lights.now sample.now }
    requires first { ratio_ends first.now
        ≡ ratios_at S.unit sample.now (first_weights (lights_of lights.now)) }
    ensures is { slice_get (deltas_under lights.now sample.now) (number - 1) ≡ Some result }
    ensures held { IsHeld result }
{
    let light = lights.get(number);
    let own = own_ratios(light, number == 1, sample, first);
    if lights.by_first {
        delta_by(light, &own, first)
    } else {
        delta_alone(light, sample, &own)
    }
}

/// The differences of a sample from the standards of the lights, one for each light, in order.
pub fn deltas<S: Scale, D: Difference<S>>(lights: &Lights<S, D>, sample: &Spectrum<S>) -> Deltas<S>
    requires { FitsLights lights.now sample.now }
    ensures { result.each.items ≡ deltas_under lights.now sample.now }
{
    let first = first_ratios(lights, sample);
    let mut each = ArrayVec::new();
    for i in 0..lights.count() {
        each.push(delta_with(lights, i + 1, sample, &first));
    }
    Deltas { each }
}
