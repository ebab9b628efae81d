//! Correcting the ratios of a sample by what it has under the first light.

ghost use Rattle.std.specs.Prelude.{◌≡◌, ℕ, ◌*◌};
ghost use Rattle.interval_specs.specs.Ranges.{UpTo};
ghost use Rattle.fix_bounds.specs.Ratios.{ratio_ends};
ghost use Rattle.metamerism.specs.Correction.{corrected_ratio, corrected_ratios};

use fix_bounds::{Iv, Ratios, Scale};

/// A ratio of a sample, corrected by the standard's ratio under the first light over its own there.
fn corrected_ratio<S: Scale>(sample: Iv<S>, standard_first: Iv<S>, sample_first: Iv<S>) -> Iv<S>
    requires sample { UpTo (3 * S.unit) sample }
    requires standard { UpTo (3 * S.unit) standard_first }
    requires divisor { UpTo (3 * S.unit) sample_first }
    ensures is { result ≡ corrected_ratio S.unit sample standard_first sample_first }
    ensures range { UpTo (3 * S.unit) result }
{
    if 0 < sample_first.lo() {
        sample.mul(standard_first).div(sample_first).cut_high(3)
    } else {
        Iv::of_ends(0, 3 * S::UNIT)
    }
}

/// The three ratios of a sample, each corrected on its own.
pub(crate) fn corrected_ratios<S: Scale>(
    sample: &Ratios<S>,
    standard_first: &Ratios<S>,
    sample_first: &Ratios<S>,
) -> Ratios<S>
    ensures { ratio_ends result ≡ corrected_ratios S.unit (ratio_ends sample.now)
        (ratio_ends standard_first.now) (ratio_ends sample_first.now) }
{
    Ratios {
        x: corrected_ratio(sample.x, standard_first.x, sample_first.x),
        y: corrected_ratio(sample.y, standard_first.y, sample_first.y),
        z: corrected_ratio(sample.z, standard_first.z, sample_first.z),
    }
}
