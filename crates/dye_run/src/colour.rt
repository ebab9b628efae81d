ghost use Rattle.std.specs.Prelude.{◌≡◌, ◌^◌};
ghost use Rattle.interval_specs.specs.Ends.{IsHeld};
ghost use Rattle.fix_bounds.specs.Ratios.{ratio_ends};
ghost use Rattle.cielab_bounds.specs.Lab.{lab_ends};
ghost use Rattle.spectral_tables.specs.WeightTable.{HasItemEachWave};
ghost use Rattle.dye_run.specs.Diff.{curve_difference};
ghost use Rattle.dye_run.specs.Colours.{curve_lab, curve_ratios};
ghost use Rattle.fix_bounds.specs.Scales.{base_unit};

use cielab_bounds::{Difference, Lab, lab};
use cmc_bounds::{Cmc, delta};
use fix_bounds::{Base, Iv, Ratios};
use spectral_tables::{Curve, Weights};
use tristimulus::ratios;

/// The tristimulus ratios of a curve under a light.
pub(crate) fn curve_ratios(weights: &Weights, curve: &Curve) -> Ratios<Base>
    requires { HasItemEachWave weights.now curve.now }
    ensures { ratio_ends result ≡ curve_ratios weights.now curve.now base_unit }
{
    let sample = curve.spectrum();
    ratios(&sample, weights)
}

/// The CIELAB coordinates of a curve under a light.
pub(crate) fn colour(weights: &Weights, curve: &Curve) -> Lab<Base>
    requires { HasItemEachWave weights.now curve.now }
    ensures { lab_ends result ≡ curve_lab weights.now curve.now base_unit }
{
    lab(&curve_ratios(weights, curve))
}

/// The CMC(l:c) difference of a sample from a standard under a light.
pub(crate) fn difference(
    rule: &Cmc,
    weights: &Weights,
    standard: &Curve,
    sample: &Curve,
) -> Iv<Base>
    requires standard { HasItemEachWave weights.now standard.now }
    requires sample { HasItemEachWave weights.now sample.now }
    ensures is { result
        ≡ curve_difference rule.now.l10 rule.now.c10 weights.now standard.now sample.now base_unit }
    ensures held { IsHeld result }
{
    let kept = rule.keep(&colour(weights, standard));
    delta(rule, &kept, &colour(weights, sample))
}
