//! The lights of a job, with its standard.

ghost use Rattle.std.specs.Prelude.{◌≡◌, List, All, length};
ghost use Rattle.interval_specs.specs.Ends.{Ends};
ghost use Rattle.job_keys.specs.Light.{IsLight};
ghost use Rattle.metamerism.specs.Lights.{delta_under, deltas_under, places_of, tolerances_of};
ghost use Rattle.metamerism.specs.Places.{light_places};
ghost use Rattle.spectral_tables.specs.Spectrum.{spectrum_at};
ghost use Rattle.spectral_tables.specs.WeightTable.{HasItemEachWave, IsWeightTable};
ghost use Rattle.recipe_judge.specs.Evaluation.{difference_of_light, differences_under, tolerances};
ghost use Rattle.fix_bounds.specs.Scales.{base_unit};

use cmc_bounds::Cmc;
use fix_bounds::Base;
use job_file::{JobLight, Resolved};
use metamerism::{Light, Lights, light};
use spectral_tables::{Spectrum, Weights};

/// A light of a job with its weights, for a standard with this spectrum.
fn light_of(of: &JobLight, weights: &Weights, standard: &Spectrum<Base>) -> Light<Base, Cmc>
    requires range { IsLight of.now }
    requires waves { HasItemEachWave weights.now standard.now }
    ensures tolerance { result.tolerance ≡ of.now.tolerance }
    ensures delta { (sample : List Ends) → delta_under result sample
        ≡ difference_of_light base_unit standard.now of.now weights.now sample }
    ensures places { light_places result ≡ length weights.now.weights }
    ensures held { IsWeightTable weights.now }
{
    // called only for its contract: the weights satisfy their invariant
    let _ = weights.waves();
    let rule = Cmc {
        l10: of.l10,
        c10: of.c10,
    };
    light(weights, of.tolerance, rule, standard)
}

/// The lights of a job, for its standard.
pub(crate) fn lights_of(resolved: &Resolved) -> Lights<Base, Cmc>
    ensures tolerances { tolerances_of result ≡ tolerances resolved.now.job.light.items }
    ensures deltas { (sample : List Ends) → deltas_under result sample
        ≡ differences_under base_unit (spectrum_at base_unit resolved.now.standard)
        resolved.now.job.light.items resolved.now.weights sample }
    ensures places { places_of result ≡ length resolved.now.substrate }
    ensures held { All IsWeightTable resolved.now.weights }
{
    let standard = resolved.standard.spectrum::<Base>();
    let lights = resolved.job.light.as_slice();
    let weights = resolved.weights.as_slice();
    let first = light_of(&lights[0], &weights[0], &standard);
    if lights.len() == 1 {
        return Lights::one(first);
    }
    let second = light_of(&lights[1], &weights[1], &standard);
    Lights::two(first, second)
}
