//! A dye, which keeps what its calibration needs at each wavelength.

ghost use Rattle.std.specs.Prelude.{◌≡◌, ℕ, ◌*◌, ◌^◌, ◌<◌, ◌≤◌, length};
ghost use Rattle.interval_specs.specs.Ranges.{UpTo};
ghost use Rattle.ks_curves.specs.Dye.{CanCalibrate, IsDye};
ghost use Rattle.ks_curves.specs.Calibration.{value_over};

use crate::broken::BrokenLine;
use crate::kind::Calibration;
use crate::reach::{Places, Reach};
use crate::shape::Shape;
use crate::slope::Slope;
use arrayvec::ArrayVec;
use fix_bounds::{Iv, Scale};
use spectral_tables::Curve;
use std::marker::Model;

/// A dye, described by the cloths that were dyed with it: how it is calibrated, the units of a
/// step, 1 to 8 dyeings with the units of each, and the undyed cloth. A unit is 0.001 percent of
/// the weight of the cloth.
///
/// The slope of a straight line and the nodes of a broken one do not depend on the steps, so they
/// are kept at both scales.
#[derive(Drop)]
pub struct Dye {
    step: u32,
    substrate: Curve,
    dyeings: ArrayVec<(u32, Curve), 8>,
    shape: Shape,
}

impl Model for Dye {
    ghost use Rattle.ks_curves.specs.Dye.{DyeData};
    ghost use Rattle.ks_curves.specs.Shape.{KeepsDye, kind_of};

    ghost Value = { DyeData };

    ghost view = { λ d.
        record {
          kind = kind_of d.shape;
          step = d.step;
          substrate = d.substrate;
          dyeings = d.dyeings.items;
        } };

    ghost invariant = { λ d.
        KeepsDye
        (record {
          kind = kind_of d.shape;
          step = d.step;
          substrate = d.substrate;
          dyeings = d.dyeings.items;
        })
        d.shape };
}

impl Dye {
    /// The dye with these dyeings of a cloth, calibrated in this way. A step of a recipe has `step`
    /// units.
    pub fn of(
        kind: Calibration,
        step: u32,
        substrate: Curve,
        dyeings: ArrayVec<(u32, Curve), 8>,
    ) -> Dye
        requires { CanCalibrate
            (record { kind = kind; step = step; substrate = substrate; dyeings = dyeings.items }) }
        ensures is { result
            ≡ record { kind = kind; step = step; substrate = substrate; dyeings = dyeings.items } }
        ensures held { IsDye result }
    {
        let shape = match kind {
            Calibration::Line => Shape::Straight(Slope::of(&substrate, dyeings.as_slice())),
            Calibration::Broken => Shape::Broken(BrokenLine::of(&substrate, dyeings.as_slice())),
        };
        Dye {
            step,
            substrate,
            dyeings,
            shape,
        }
    }

    /// How it is calibrated.
    pub fn kind(&self) -> Calibration
        ensures is { result ≡ self.now.kind }
        ensures held { IsDye self.now }
    {
        match &self.shape {
            Shape::Straight(_) => Calibration::Line,
            Shape::Broken(_) => Calibration::Broken,
        }
    }

    /// The units of one step.
    pub fn step(&self) -> u32
        ensures is { result ≡ self.now.step }
        ensures held { IsDye self.now }
    {
        self.step
    }

    /// How many wavelengths its curves have.
    pub fn waves(&self) -> usize
        ensures is { result ≡ length self.now.substrate }
        ensures held { IsDye self.now }
    {
        self.substrate.waves()
    }

    /// Guesses at where `x0` and `x1` units lie on a broken line.
    pub(crate) fn reach(&self, x0: u32, x1: u32) -> Reach {
        match &self.shape {
            Shape::Straight(_) => Reach::default(),
            Shape::Broken(line) => line.reach(x0, x1),
        }
    }

    /// Guesses at where an addition of `x0` to `x1` units lies, where `bath` units of the dye are on
    /// the cloth. They serve at each wavelength.
    pub fn places(&self, bath: u32, x0: u32, x1: u32) -> Places {
        match &self.shape {
            Shape::Straight(_) => Places::default(),
            Shape::Broken(line) => Places {
                bath: line.reach(bath, bath),
                sum: line.reach(bath.saturating_add(x0), bath.saturating_add(x1)),
            },
        }
    }

    /// The same of an addition of `n0` to `n1` steps, where `bath` steps are on the cloth.
    pub fn places_of_steps(&self, bath: u16, n0: u16, n1: u16) -> Places {
        let step = self.step;
        self.places(
            u32::from(bath).saturating_mul(step),
            u32::from(n0).saturating_mul(step),
            u32::from(n1).saturating_mul(step),
        )
    }

    /// The value of the calibration over units from `x0` to `x1` at a wavelength. `reach` is a guess
    /// at where both lie on a broken line.
    #[inline(always)]
    pub(crate) fn value_over<S: Scale>(&self, x0: u32, x1: u32, wave: usize, reach: &Reach) -> Iv<S>
        requires wave { wave < length self.now.substrate }
        requires ordered { x0 ≤ x1 }
        requires units { x1 ≤ 40000 }
        ensures is { result ≡ value_over S.unit self.now wave x0 x1 }
        ensures range { UpTo (4 * 10 ^ 8 * S.unit) result }
        ensures held { IsDye self.now }
    {
        let dyeings = self.dyeings.as_slice();
        match &self.shape {
            Shape::Straight(slope) => slope.value_over(&self.substrate, dyeings, x0, x1, wave),
            Shape::Broken(line) => {
                line.value_over(&self.substrate, dyeings, x0, x1, wave, reach)
            }
        }
    }
}
