//! Judging samples under the lights of a job, one light at a time.

ghost use Rattle.std.specs.Prelude.{◌≡◌};
ghost use Rattle.interval_specs.specs.Ends.{IsOrdered};
ghost use Rattle.spectral_tables.specs.WeightTable.{HasItemEachWave};
ghost use Rattle.metamerism.specs.Lights.{FitsLights, delta_under, deltas_under, tolerances_of};
ghost use Rattle.metamerism.specs.Verdicts.{light_verdict, verdict_at};
ghost use Rattle.recipe_judge.specs.Recipes.{is_fail};
ghost use Rattle.fix_bounds.specs.Scales.{base_unit};

use cmc_bounds::Cmc;
use fix_bounds::Base;
use metamerism::{Light, Lights, Verdict, delta_of, judge_light};
use spectral_tables::Spectrum;

/// The verdict on a sample under the light with a number.
fn verdict_under(light: &Light<Base, Cmc>, number: u8, sample: &Spectrum<Base>) -> Verdict
    requires { HasItemEachWave light.now.weights sample.now }
    ensures is { result ≡ light_verdict base_unit light.now.tolerance number
        (delta_under light.now sample.now) }
    ensures ordered { IsOrdered (delta_under light.now sample.now) }
{
    judge_light(light.tolerance, number, delta_of(light, sample))
}

/// Whether a sample fails under a light.
pub(crate) fn light_fails(light: &Light<Base, Cmc>, sample: &Spectrum<Base>) -> bool
    requires { HasItemEachWave light.now.weights sample.now }
    ensures { result ≡ is_fail base_unit light.now.tolerance (delta_under light.now sample.now) }
{
    matches!(verdict_under(light, 1, sample), Verdict::Fail(_))
}

/// The verdict on a sample under all lights. No light is evaluated after one that fails.
pub(crate) fn verdict_on(lights: &Lights<Base, Cmc>, sample: &Spectrum<Base>) -> Verdict
    requires { FitsLights lights.now sample.now }
    ensures { result
        ≡ verdict_at base_unit (tolerances_of lights.now) (deltas_under lights.now sample.now) }
{
    let mut so_far = Verdict::Pass;
    for i in 0..lights.count() {
        match verdict_under(lights.get(i + 1), i + 1, sample) {
            Verdict::Pass => {}
            Verdict::Fail(light) => return Verdict::Fail(light),
            Verdict::Undecided => so_far = Verdict::Undecided,
        }
    }
    so_far
}
