//! The tristimulus ratios: weighted sums of a spectrum, each over the value of white.

ghost use Rattle.std.specs.Prelude.{◌≡◌, ◌*◌, ◌<◌, ◌≤◌, [], length, slice_index_or};
ghost use Rattle.interval_specs.specs.Ranges.{MagnitudeUpTo, UpTo};
ghost use Rattle.spectral_tables.specs.WeightTable.{HasItemEachWave, IsWeightTable, at_column, magnitude_sum};
ghost use Rattle.fix_bounds.specs.Ratios.{ratio_ends};
ghost use Rattle.tristimulus.specs.Ratios.{weighted_sum, ratio_at_column, ratios_at};

use fix_bounds::{Iv, Ratios, Scale};
use spectral_tables::{Spectrum, Weights};

/// The weight of a wavelength in a column.
fn weight_at(weights: &Weights, wave: usize, column: usize) -> i64
    requires wave { wave < length weights.now.weights }
    requires column { column < 3 }
    ensures is { result ≡ at_column column (slice_index_or weights.now.weights wave []) }
    ensures held { IsWeightTable weights.now }
{
    weights.at(wave)[column]
}

/// The sum of a column's weights, each times the reflectance at its wavelength.
fn weighted_sum<S: Scale>(sample: &Spectrum<S>, weights: &Weights, column: usize) -> Iv<S>
    requires waves { HasItemEachWave weights.now sample.now }
    requires column { column < 3 }
    ensures is { result ≡ weighted_sum column weights.now.weights sample.now }
    ensures magnitude { MagnitudeUpTo (magnitude_sum column weights.now.weights * S.unit) result }
{
    let mut sum = Iv::of_ends(0, 0);
    for wave in 0..weights.waves() {
        let part = sample.at(wave).scale_by(weight_at(weights, wave, column));
        sum = sum.add(part);
    }
    sum
}

/// The ratio of a column: its weighted sum over its value of white, and at least 0.
#[tactic(auto, unfolding(crate::specs::Ratios::ratio_at_column))]
fn ratio<S: Scale>(sample: &Spectrum<S>, weights: &Weights, column: usize) -> Iv<S>
    requires waves { HasItemEachWave weights.now sample.now }
    requires column { column < 3 }
    ensures is { result ≡ ratio_at_column S.unit column sample.now weights.now }
    ensures range { UpTo (3 * S.unit) result }
{
    let white = weights.white()[column] as u64;
    let sum = weighted_sum(sample, weights, column);
    sum.ratio_up(1, white).cut_low(0)
}

/// The tristimulus ratios X/Xn, Y/Yn and Z/Zn of a sample under the weights of a light and observer
/// for the same wavelengths.
#[tactic(auto, unfolding(crate::specs::Ratios::ratios_at))]
pub fn ratios<S: Scale>(sample: &Spectrum<S>, weights: &Weights) -> Ratios<S>
    requires { HasItemEachWave weights.now sample.now }
    ensures { ratio_ends result ≡ ratios_at S.unit sample.now weights.now }
{
    Ratios {
        x: ratio(sample, weights, 0),
        y: ratio(sample, weights, 1),
        z: ratio(sample, weights, 2),
    }
}
