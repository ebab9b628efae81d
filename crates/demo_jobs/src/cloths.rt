//! The curves of the undyed cloth and of the dyeings.

ghost use Rattle.std.specs.Prelude.{◌≡◌, ◌≤◌, ◌<◌, length};
ghost use Rattle.spectral_tables.specs.Curve.{IsCurve, IsReflectance};
ghost use Rattle.demo_jobs.specs.Cloths.{dyed, dyed_at, strength, substrate, substrate_at, triangle};
ghost use Rattle.demo_jobs.specs.Dyes.{IsDrawn};

use crate::dyes::DrawnDye;
use arrayvec::ArrayVec;
use spectral_tables::Curve;

/// How many wavelengths a curve has: index `k` stands for `400 + 10 * k` nm.
pub(crate) const WAVES: u32 = 31;

/// The height of a triangle at an index: `height` at the index `top`, one less with each step away
/// from it, and never below 0.
pub(crate) fn triangle(height: u32, top: u32, index: u32) -> u32
    ensures is { result ≡ triangle height top index }
    ensures low { result ≤ height }
{
    height.saturating_sub(index.abs_diff(top))
}

/// The reflectance of the undyed cloth, in millionths.
fn substrate_at(index: u32) -> u32
    requires { index < 31 }
    ensures is { result ≡ substrate_at index }
    ensures range { IsReflectance result }
    ensures small { result ≤ 840000 }
{
    750_000 + 3_000 * index
}

/// How strongly a dye absorbs light at a wavelength index: 100 units of it divide the reflectance
/// by `1 + strength / 1000`.
fn strength(dye: &DrawnDye, index: u32) -> u32
    requires { IsDrawn dye.now }
    ensures is { result ≡ strength dye.now index }
    ensures low { result ≤ 404 }
{
    dye.height * triangle(9, dye.centre, index) / 9 + 5
}

/// The reflectance of the cloth with `units` of a dye, in millionths.
fn dyed_at(dye: &DrawnDye, units: u32, index: u32) -> u32
    requires index { index < 31 }
    requires units { units ≤ 2000 }
    requires range { IsDrawn dye.now }
    ensures is { result ≡ dyed_at dye.now units index }
    ensures range { IsReflectance result }
{
    let dark = 1000 + strength(dye, index) * units / 100;
    (substrate_at(index) * 1000 / dark).max(100)
}

/// The curve of the undyed cloth.
#[tactic(auto, unfolding(crate::specs::Cloths::indices, crate::specs::Cloths::substrate))]
pub(crate) fn substrate() -> Curve
    ensures is { result ≡ substrate }
    ensures held { IsCurve result }
    ensures waves { length result ≡ 31 }
{
    let mut millionths: ArrayVec<u32, 31> = ArrayVec::new();
    for index in 0..WAVES {
        millionths.push(substrate_at(index));
    }
    Curve::of(millionths.as_slice())
}

/// The curve of the cloth with `units` of a dye.
#[tactic(auto, unfolding(crate::specs::Cloths::indices, crate::specs::Cloths::dyed))]
pub(crate) fn dyed(dye: &DrawnDye, units: u32) -> Curve
    requires units { units ≤ 2000 }
    requires range { IsDrawn dye.now }
    ensures is { result ≡ dyed dye.now units }
    ensures held { IsCurve result }
    ensures waves { length result ≡ 31 }
{
    let mut millionths: ArrayVec<u32, 31> = ArrayVec::new();
    for index in 0..WAVES {
        millionths.push(dyed_at(dye, units, index));
    }
    Curve::of(millionths.as_slice())
}
