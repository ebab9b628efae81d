//! The slope of a dye's calibration at a wavelength: its numerator at a scale, and its denominator.

ghost use Rattle.std.specs.Prelude.{◌≡◌, ℕ, ◌*◌, ◌^◌, ◌<◌, ◌≤◌, All, length, slice_index};
ghost use Rattle.interval_specs.specs.Operations.{difference_of};
ghost use Rattle.ks_curves.specs.KubelkaMunk.{ks_at};
ghost use Rattle.interval_specs.specs.Ranges.{MagnitudeUpTo, UpTo};
ghost use Rattle.spectral_tables.specs.Curve.{IsCurve};
ghost use Rattle.ks_curves.specs.Dye.{IsDyeing};
ghost use Rattle.ks_curves.specs.Calibration.{weighted_addition, weighted_sum, numerator_at, square_sum};
ghost use Rattle.ks_curves.specs.Slope.{unit_sum};

use crate::kubelka_munk::ks;
use fix_bounds::{Iv, Scale};
use spectral_tables::Curve;

/// What a dyeing adds to the K/S of the substrate at a wavelength.
pub(crate) fn added<S: Scale>(substrate: &Curve, dyed: &Curve, wave: usize) -> Iv<S>
    requires substrate { wave < length substrate.now }
    requires dyed { wave < length dyed.now }
    ensures is { result ≡ difference_of (ks_at S.unit (slice_index dyed.now wave)) (ks_at S.unit (slice_index substrate.now wave)) }
    ensures range { MagnitudeUpTo (10 ^ 4 * S.unit) result }
{
    ks::<S>(dyed.at(wave)).sub(ks(substrate.at(wave)))
}

/// What a dyeing adds to the K/S of the substrate at a wavelength, times its units.
fn weighted_addition<S: Scale>(substrate: &Curve, units: u32, dyed: &Curve, wave: usize) -> Iv<S>
    requires substrate { wave < length substrate.now }
    requires dyed { wave < length dyed.now }
    requires units { units ≤ 20000 }
    ensures is { result ≡ weighted_addition S.unit substrate.now wave (units, dyed.now) }
    ensures range { MagnitudeUpTo (units * (10 ^ 4 * S.unit)) result }
{
    added::<S>(substrate, dyed, wave).scale_by(i64::from(units))
}

/// The sum over the dyeings of what each adds, times its units.
fn weighted_sum<S: Scale>(substrate: &Curve, dyeings: &[(u32, Curve)], wave: usize) -> Iv<S>
    requires wave { wave < length substrate.now }
    requires few { length dyeings.now ≤ 8 }
    requires dyeings { All (IsDyeing (length substrate.now)) dyeings.now }
    ensures is { result ≡ weighted_sum S.unit substrate.now wave dyeings.now }
    ensures range { MagnitudeUpTo (unit_sum dyeings.now * (10 ^ 4 * S.unit)) result }
{
    let mut sum = Iv::default();
    for (units, dyed) in dyeings {
        sum = sum.add(weighted_addition(substrate, *units, dyed, wave));
    }
    sum
}

/// The numerator of the slope at a wavelength.
#[tactic(auto, unfolding(crate::specs::Calibration::numerator_at))]
pub(crate) fn numerator<S: Scale>(substrate: &Curve, dyeings: &[(u32, Curve)], wave: usize) -> Iv<S>
    requires wave { wave < length substrate.now }
    requires few { length dyeings.now ≤ 8 }
    requires dyeings { All (IsDyeing (length substrate.now)) dyeings.now }
    ensures is { result ≡ numerator_at S.unit substrate.now wave dyeings.now }
    ensures range { UpTo (unit_sum dyeings.now * (10 ^ 4 * S.unit)) result }
{
    weighted_sum::<S>(substrate, dyeings, wave).cut_low(0)
}

/// The sum of the squares of the units, the denominator of the slope.
pub(crate) fn square_sum(dyeings: &[(u32, Curve)]) -> u64
    requires few { length dyeings.now ≤ 8 }
    requires units { All (λ d. d.0 ≤ 20000) dyeings.now }
    ensures { result ≡ square_sum dyeings.now }
{
    let mut sum = 0;
    for (units, _) in dyeings {
        sum += u64::from(*units) * u64::from(*units);
    }
    sum
}

/// Called for its contract alone: the reflectances are those of curves.
pub(crate) fn are_curves(substrate: &Curve, dyeings: &[(u32, Curve)])
    ensures substrate { IsCurve substrate.now }
    ensures dyeings { All (λ d. IsCurve d.1) dyeings.now }
{
    let _ = substrate.waves();
    for (_, dyed) in dyeings {
        let _ = dyed.waves();
    }
}
