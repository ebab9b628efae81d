//! The slope of a dye's straight line.

ghost use Rattle.std.specs.Prelude.{◌≡◌, ℕ, pos, ◌*◌, ◌^◌, ◌<◌, ◌≤◌, ◌≤ℤ◌, All, length};
ghost use Rattle.interval_specs.specs.Ranges.{UpTo};
ghost use Rattle.spectral_tables.specs.Spectrum.{ends_of};
ghost use Rattle.ks_curves.specs.Dye.{IsDyeing};
ghost use Rattle.ks_curves.specs.Calibration.{numerator_at};
ghost use Rattle.ks_curves.specs.Slope.{CanFit, KeepsNumerators, KeepsSlope, line_over, unit_sum};
ghost use Rattle.spectral_tables.specs.Curve.{IsCurve};

use crate::calibration::{are_curves, numerator, square_sum};
use crate::near::{near_slope, near_value};
use crate::share::{share_down, share_up};
use arrayvec::ArrayVec;
use fix_bounds::{Base, Iv, Quick, Scale};
use spectral_tables::{Curve, MOST_WAVES};

/// The two ends of a numerator at each wavelength, neither below 0.
type Numerators = ArrayVec<(u128, u128), MOST_WAVES>;

/// Guesses at 2^24 times the two ends of the slope at each wavelength, for the base scale.
type Slopes = [(u64, u64); MOST_WAVES];

/// The slope of a straight line at each wavelength: its numerators at both scales, and its
/// denominator.
#[derive(Drop)]
pub(crate) struct Slope {
    square_sum: u64,
    base: Numerators,
    quick: Numerators,
    near: Slopes,
}

/// The ends of an interval that is not below 0.
fn stored_ends<S: Scale>(numerator: Iv<S>) -> (u128, u128)
    requires { pos 0 ≤ℤ numerator.lo }
    ensures { ends_of result ≡ numerator }
{
    (numerator.lo() as u128, numerator.hi() as u128)
}

/// The numerator of the slope at each wavelength.
fn numerators<S: Scale>(substrate: &Curve, dyeings: &[(u32, Curve)]) -> Numerators
    requires few { length dyeings.now ≤ 8 }
    requires dyeings { All (IsDyeing (length substrate.now)) dyeings.now }
    ensures { KeepsNumerators S.unit substrate.now dyeings.now result.items }
{
    let mut kept = ArrayVec::new();
    for wave in 0..substrate.waves() {
        let numerator = numerator::<S>(substrate, dyeings, wave);
        kept.push(stored_ends(numerator));
    }
    kept
}

/// Guesses at 2^24 times the slope, from its numerators and its denominator.
fn near_slopes(numerators: &[(u128, u128)], denominator: u64) -> Slopes {
    let mut slopes = [(0, 0); MOST_WAVES];
    for wave in 0..MOST_WAVES {
        if let Some((low, high)) = numerators.get(wave) {
            slopes[wave] = (
                near_slope(*low, denominator),
                near_slope(*high, denominator),
            );
        }
    }
    slopes
}

impl Slope {
    /// The slope of the line that fits these dyeings of a cloth.
    pub(crate) fn of(substrate: &Curve, dyeings: &[(u32, Curve)]) -> Slope
        requires few { length dyeings.now ≤ 8 }
        requires dyeings { All (IsDyeing (length substrate.now)) dyeings.now }
        ensures is { KeepsSlope substrate.now dyeings.now result }
        ensures substrate { IsCurve substrate.now }
        ensures curves { All (λ d. IsCurve d.1) dyeings.now }
    {
        are_curves(substrate, dyeings);
        let square_sum = square_sum(dyeings);
        let base = numerators::<Base>(substrate, dyeings);
        let near = near_slopes(base.as_slice(), square_sum);
        Slope {
            square_sum,
            base,
            quick: numerators::<Quick>(substrate, dyeings),
            near,
        }
    }

    /// The ends of the numerator at a wavelength: stored at both scales, and computed at any other.
    #[inline(always)]
    pub(crate) fn numerator<S: Scale>(
        &self,
        substrate: &Curve,
        dyeings: &[(u32, Curve)],
        wave: usize,
    ) -> (u128, u128)
        requires wave { wave < length substrate.now }
        requires few { length dyeings.now ≤ 8 }
        requires dyeings { All (IsDyeing (length substrate.now)) dyeings.now }
        requires keeps { KeepsSlope substrate.now dyeings.now self.now }
        ensures is { ends_of result ≡ numerator_at S.unit substrate.now wave dyeings.now }
        ensures range { UpTo (unit_sum dyeings.now * (10 ^ 4 * S.unit)) (ends_of result) }
    {
        if S::UNIT == Base::UNIT {
            self.base.as_slice()[wave]
        } else if S::UNIT == Quick::UNIT {
            self.quick.as_slice()[wave]
        } else {
            let numerator = numerator::<S>(substrate, dyeings, wave);
            stored_ends(numerator)
        }
    }

    /// Guesses at the ends of the value at x0 and at x1 units, and 0 at other scales than the base
    /// scale, since a division costs less at the quick scale.
    #[inline(always)]
    pub(crate) fn near<S: Scale>(&self, x0: u32, x1: u32, wave: usize) -> (u64, u64) {
        if S::UNIT != Base::UNIT {
            return (0, 0);
        }
        match self.near.as_slice().get(wave) {
            Some((low, high)) => (near_value(*low, x0), near_value(*high, x1)),
            None => (0, 0),
        }
    }

    /// The values of the line over units from `x0` to `x1` at a wavelength.
    #[inline(always)]
    pub(crate) fn value_over<S: Scale>(
        &self,
        substrate: &Curve,
        dyeings: &[(u32, Curve)],
        x0: u32,
        x1: u32,
        wave: usize,
    ) -> Iv<S>
        requires wave { wave < length substrate.now }
        requires dyeings { CanFit substrate.now dyeings.now }
        requires keeps { KeepsSlope substrate.now dyeings.now self.now }
        requires ordered { x0 ≤ x1 }
        requires units { x1 ≤ 40000 }
        ensures is { result ≡ line_over S.unit substrate.now dyeings.now wave x0 x1 }
        ensures range { UpTo (4 * 10 ^ 8 * S.unit) result }
    {
        let (low, high) = self.numerator::<S>(substrate, dyeings, wave);
        let (near_low, near_high) = self.near::<S>(x0, x1, wave);
        let below = share_down(low, x0, self.square_sum, near_low);
        let above = share_up(high, x1, self.square_sum, near_high);
        Iv::of_ends(below as i128, above as i128)
    }
}
