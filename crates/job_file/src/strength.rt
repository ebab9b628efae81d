//! Whether recipes are too strong.

ghost use Rattle.std.specs.Prelude.{◌≡◌, length};
ghost use Rattle.mix_model.specs.Base.{base_at};
ghost use Rattle.mix_model.specs.Mixture.{CanAdd, no_steps};
ghost use Rattle.mix_model.specs.Strength.{is_too_strong};
ghost use Rattle.job_file.specs.Resolve.{up_to_most};
ghost use Rattle.fix_bounds.specs.Scales.{base_unit};

use ks_curves::Dye;
use mix_model::{BaseCurve, doses_of, is_too_strong, no_steps};
use spectral_tables::Curve;

/// Whether the recipes of up to the most steps of each dye are too strong, taken together: the upper
/// end of their K/S on a cloth is too high at some wavelength.
pub(crate) fn most_is_too_strong(base: &Curve, dyes: &[Dye], bath: &[u16], most: &[u16]) -> bool
    requires { CanAdd (length base.now) dyes.now bath.now (no_steps dyes.now) most.now }
    ensures { result
        ≡ is_too_strong (base_at base_unit base.now) (up_to_most dyes.now bath.now most.now) }
{
    let none = no_steps(dyes);
    let doses = doses_of(dyes, bath, none.as_slice(), most);
    is_too_strong(&BaseCurve::of(base), dyes, doses.as_slice())
}
