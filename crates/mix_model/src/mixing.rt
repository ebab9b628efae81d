//! The spectrum of a mixture.

ghost use Rattle.std.specs.Prelude.{◌≡◌};
ghost use Rattle.spectral_tables.specs.Spectrum.{IsSpectrum};
ghost use Rattle.mix_model.specs.Mixture.{CanMix, CanMixDoses, dosed, mixed_at, portions};

use crate::base::BaseCurve;
use crate::dose::Dose;
use crate::sums::Sums;
use fix_bounds::Scale;
use ks_curves::Dye;
use spectral_tables::Spectrum;

/// The reflectances of a mixture: `lo` to `hi` steps of each dye, in the order of the dyes, on a
/// base, where the steps in `bath` are on the cloth.
///
/// For a single recipe, `lo` and `hi` are both its steps.
pub fn mix<S: Scale>(
    base: &BaseCurve<S>,
    dyes: &[Dye],
    bath: &[u16],
    lo: &[u16],
    hi: &[u16],
) -> Spectrum<S>
    requires { CanMix S.unit base.now dyes.now bath.now lo.now hi.now }
    ensures is { result ≡ mixed_at S.unit base.now (portions dyes.now bath.now lo.now hi.now) }
    ensures held { IsSpectrum S.unit result }
{
    Sums::of(base, dyes, bath, lo, hi).spectrum()
}

/// The reflectances of a mixture of these doses, one of each dye in the order of the dyes.
pub fn mix_doses<S: Scale>(base: &BaseCurve<S>, dyes: &[Dye], doses: &[Dose]) -> Spectrum<S>
    requires { CanMixDoses S.unit base.now dyes.now doses.now }
    ensures is { result ≡ mixed_at S.unit base.now (dosed dyes.now doses.now) }
    ensures held { IsSpectrum S.unit result }
{
    Sums::of_doses(base, dyes, doses).spectrum()
}
