//! What steps or units of a dye add to K/S.

ghost use Rattle.std.specs.Prelude.{◌≡◌, ℕ, ◌+◌, ◌*◌, ◌^◌, ◌<◌, ◌≤◌, length};
ghost use Rattle.interval_specs.specs.Ranges.{MagnitudeUpTo, UpTo};
ghost use Rattle.ks_curves.specs.Dye.{IsDye};
ghost use Rattle.ks_curves.specs.Calibration.{addition_over, addition_range_at, contribution_at, contribution_range_at, value_over};

use crate::dye::Dye;
use crate::kind::Calibration;
use crate::reach::Places;
use fix_bounds::{Iv, Scale};

/// The contribution of `n` steps of the dye to K/S at a wavelength.
pub fn contribution<S: Scale>(dye: &Dye, n: u16, wave: usize) -> Iv<S>
    requires wave { wave < length dye.now.substrate }
    requires units { n * dye.now.step ≤ 40000 }
    ensures is { result ≡ contribution_at S.unit dye.now wave n }
    ensures range { UpTo (4 * 10 ^ 8 * S.unit) result }
    ensures held { IsDye dye.now }
{
    contribution_range(dye, n, n, wave)
}

/// The contribution of `n0` to `n1` steps of the dye to K/S at a wavelength.
pub fn contribution_range<S: Scale>(dye: &Dye, n0: u16, n1: u16, wave: usize) -> Iv<S>
    requires wave { wave < length dye.now.substrate }
    requires ordered { n0 ≤ n1 }
    requires units { n1 * dye.now.step ≤ 40000 }
    ensures is { result ≡ contribution_range_at S.unit dye.now wave n0 n1 }
    ensures range { UpTo (4 * 10 ^ 8 * S.unit) result }
    ensures held { IsDye dye.now }
{
    let step = dye.step();
    contribution_units(dye, u32::from(n0) * step, u32::from(n1) * step, wave)
}

/// The contribution of `x0` to `x1` units of the dye to K/S at a wavelength.
#[inline(always)]
pub fn contribution_units<S: Scale>(dye: &Dye, x0: u32, x1: u32, wave: usize) -> Iv<S>
    requires wave { wave < length dye.now.substrate }
    requires ordered { x0 ≤ x1 }
    requires units { x1 ≤ 40000 }
    ensures is { result ≡ value_over S.unit dye.now wave x0 x1 }
    ensures range { UpTo (4 * 10 ^ 8 * S.unit) result }
    ensures held { IsDye dye.now }
{
    dye.value_over(x0, x1, wave, &dye.reach(x0, x1))
}

/// The contribution of an addition of `x0` to `x1` units of the dye, where `bath` units of it are
/// on the cloth.
pub fn addition_units<S: Scale>(dye: &Dye, bath: u32, x0: u32, x1: u32, wave: usize) -> Iv<S>
    requires wave { wave < length dye.now.substrate }
    requires ordered { x0 ≤ x1 }
    requires units { bath + x1 ≤ 40000 }
    ensures is { result ≡ addition_over S.unit dye.now wave bath x0 x1 }
    ensures range { MagnitudeUpTo (4 * 10 ^ 8 * S.unit) result }
    ensures held { IsDye dye.now }
{
    addition_placed(dye, bath, x0, x1, wave, &dye.places(bath, x0, x1))
}

/// The same contribution, where the places of the addition were found before, for all wavelengths.
#[inline(always)]
pub fn addition_placed<S: Scale>(
    dye: &Dye,
    bath: u32,
    x0: u32,
    x1: u32,
    wave: usize,
    places: &Places,
) -> Iv<S>
    requires wave { wave < length dye.now.substrate }
    requires ordered { x0 ≤ x1 }
    requires units { bath + x1 ≤ 40000 }
    ensures is { result ≡ addition_over S.unit dye.now wave bath x0 x1 }
    ensures range { MagnitudeUpTo (4 * 10 ^ 8 * S.unit) result }
    ensures held { IsDye dye.now }
{
    match dye.kind() {
        Calibration::Line => dye.value_over(x0, x1, wave, &places.sum),
        Calibration::Broken => {
            if x1 == 0 {
                Iv::default()
            } else {
                let before = dye.value_over::<S>(bath, bath, wave, &places.bath);
                dye.value_over::<S>(bath + x0, bath + x1, wave, &places.sum)
                    .sub(before)
            }
        }
    }
}

/// The contribution of an addition of `n0` to `n1` steps of the dye, where `bath` steps of it are
/// on the cloth.
pub fn addition_range<S: Scale>(dye: &Dye, bath: u16, n0: u16, n1: u16, wave: usize) -> Iv<S>
    requires wave { wave < length dye.now.substrate }
    requires ordered { n0 ≤ n1 }
    requires units { (bath + n1) * dye.now.step ≤ 40000 }
    ensures is { result ≡ addition_range_at S.unit dye.now wave bath n0 n1 }
    ensures range { MagnitudeUpTo (4 * 10 ^ 8 * S.unit) result }
    ensures held { IsDye dye.now }
{
    addition_range_placed(dye, bath, n0, n1, wave, &dye.places_of_steps(bath, n0, n1))
}

/// The same contribution, where the places of the addition were found before, for all wavelengths.
#[inline(always)]
pub fn addition_range_placed<S: Scale>(
    dye: &Dye,
    bath: u16,
    n0: u16,
    n1: u16,
    wave: usize,
    places: &Places,
) -> Iv<S>
    requires wave { wave < length dye.now.substrate }
    requires ordered { n0 ≤ n1 }
    requires units { (bath + n1) * dye.now.step ≤ 40000 }
    ensures is { result ≡ addition_range_at S.unit dye.now wave bath n0 n1 }
    ensures range { MagnitudeUpTo (4 * 10 ^ 8 * S.unit) result }
    ensures held { IsDye dye.now }
{
    let step = dye.step();
    addition_placed(
        dye,
        u32::from(bath) * step,
        u32::from(n0) * step,
        u32::from(n1) * step,
        wave,
        places,
    )
}
