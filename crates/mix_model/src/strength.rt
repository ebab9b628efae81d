//! Whether a mixture is too strong.

ghost use Rattle.std.specs.Prelude.{◌≡◌, length};
ghost use Rattle.mix_model.specs.Mixture.{CanDose, dosed};
ghost use Rattle.mix_model.specs.Strength.{is_too_strong};

use crate::base::BaseCurve;
use crate::dose::{Dose, places_of};
use crate::sums::sum_at;
use fix_bounds::{Base, Scale};
use ks_curves::Dye;

/// The highest K/S that a mixture may have.
const STRONGEST: i128 = 1_000_000;

/// Whether at some wavelength the upper end of the K/S of a cloth with these doses of the dyes is
/// above 1,000,000.
#[tactic(auto, unfolding(crate::specs::Strength::is_too_strong))]
pub fn is_too_strong(base: &BaseCurve<Base>, dyes: &[Dye], doses: &[Dose]) -> bool
    requires { CanDose (length base.now) dyes.now doses.now }
    ensures { result ≡ is_too_strong base.now (dosed dyes.now doses.now) }
{
    let places = places_of(dyes, doses);
    for wave in 0..base.waves() {
        if sum_at(base, dyes, doses, places.as_slice(), wave).hi() > STRONGEST * Base::UNIT {
            return true;
        }
    }
    false
}
