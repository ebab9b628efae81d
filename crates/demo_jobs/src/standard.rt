//! The curve that is to be matched: the hidden recipe, mixed on the undyed cloth.

ghost use Rattle.std.specs.Prelude.{◌≡◌, ◌≤◌, All, IfOk, length, map};
ghost use Rattle.interval_specs.specs.Ranges.{UpTo};
ghost use Rattle.ks_curves.specs.Dye.{IsDyeing};
ghost use Rattle.spectral_tables.specs.Curve.{IsReflectance};
ghost use Rattle.demo_jobs.specs.Dyes.{IsDrawn};
ghost use Rattle.demo_jobs.specs.Standard.{dye_data, measured, standard, standard_at};
ghost use Rattle.fix_bounds.specs.Scales.{base_unit};

use crate::cloths::{WAVES, dyed, substrate};
use crate::dyes::DrawnDye;
use arrayvec::ArrayVec;
use fix_bounds::{Base, Iv};
use ks_curves::{Calibration, Dye};
use mix_model::{BaseCurve, mix, no_steps};
use spectral_tables::{Curve, MOST_WAVES, Spectrum};
use std::alloc::{AllocError, Global};

/// The dyeings of each dye: the number of each, and its units of dye.
pub(crate) const DYEINGS: [(u32, u32); 4] = [(1, 200), (2, 500), (3, 1000), (4, 2000)];

/// How many units of dye a step has.
pub(crate) const STEP: u32 = 10;

/// A dyeing with `units` of a dye: the units and its curve.
fn measured(dye: &DrawnDye, units: u32) -> (u32, Curve)
    requires some { 1 ≤ units }
    requires units { units ≤ 2000 }
    requires range { IsDrawn dye.now }
    ensures is { result ≡ measured dye.now units }
    ensures held { IsDyeing 31 result }
{
    (units, dyed(dye, units))
}

/// A dye, calibrated by its dyeings.
#[tactic(auto, unfolding(crate::specs::Standard::dye_data))]
fn calibrated(dye: &DrawnDye) -> Dye
    requires { IsDrawn dye.now }
    ensures { result ≡ dye_data dye.now }
{
    let mut dyeings = ArrayVec::new();
    for (_, units) in DYEINGS {
        dyeings.push(measured(dye, units));
    }
    Dye::of(Calibration::Line, STEP, substrate(), dyeings)
}

/// The dyes, calibrated.
fn all_calibrated(alloc: Global, dyes: &[DrawnDye]) -> Result<Vec<Dye>, AllocError>
    requires { All IsDrawn dyes.now }
    ensures { IfOk result (λ v. v.items ≡ map dye_data dyes.now) }
{
    let mut all = Vec::new(alloc);
    for dye in dyes {
        all.push(calibrated(dye))?;
    }
    Ok(all)
}

/// The lower end of a reflectance, in whole millionths, rounded down: at least 100.
fn standard_at(reflectance: Iv<Base>) -> u32
    requires { UpTo base_unit reflectance }
    ensures is { result ≡ standard_at reflectance }
    ensures range { IsReflectance result }
{
    ((reflectance.lo() / 1_000_000) as u32).max(100)
}

/// The lower ends of a spectrum, in whole millionths, rounded down: each at least 100.
fn curve_of(spectrum: &Spectrum<Base>) -> Curve
    ensures { result ≡ map standard_at spectrum.now }
{
    let mut millionths: ArrayVec<u32, MOST_WAVES> = ArrayVec::new();
    for index in 0..spectrum.waves() {
        millionths.push(standard_at(spectrum.at(index)));
    }
    Curve::of(millionths.as_slice())
}

/// The curve of the undyed cloth dyed with `steps` of each dye.
#[tactic(auto, unfolding(crate::specs::Standard::standard))]
pub(crate) fn standard(alloc: Global, dyes: &[DrawnDye], steps: &[u16]) -> Result<Curve, AllocError>
    requires dyes { All IsDrawn dyes.now }
    requires few { length dyes.now ≤ 6 }
    requires count { length steps.now ≡ length dyes.now }
    requires steps { All (λ n. n ≤ 400) steps.now }
    ensures { IfOk result (λ c. c ≡ standard dyes.now steps.now) }
{
    let base: BaseCurve<Base> = BaseCurve::of(&substrate());
    let dyes = all_calibrated(alloc, dyes)?;
    let bath = no_steps(dyes.as_slice());
    let spectrum = mix(&base, dyes.as_slice(), bath.as_slice(), steps, steps);
    Ok(curve_of(&spectrum))
}
