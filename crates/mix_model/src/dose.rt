//! Amounts of dyes in a mixture.

ghost use Rattle.std.specs.Prelude.{◌≡◌, ◌≤◌, length};
ghost use Rattle.mix_model.specs.Mixture.{HaveSteps, doses_of, no_steps};

use arrayvec::ArrayVec;
use ks_curves::{Dye, Places};

/// An addition of `from` to `upto` units of a dye, where `bath` units of it are on the cloth. A unit
/// is 0.001 percent of the weight of the cloth.
#[derive(Clone, Copy, Debug, Default, PartialEq, Eq)]
pub struct Dose {
    pub bath: u32,
    pub from: u32,
    pub upto: u32,
}

/// The doses of `lo` to `hi` steps of each dye, where the steps in `bath` are on the cloth.
#[tactic(auto, unfolding(crate::specs::Mixture::doses_of))]
pub fn doses_of(dyes: &[Dye], bath: &[u16], lo: &[u16], hi: &[u16]) -> ArrayVec<Dose, 12>
    requires { HaveSteps dyes.now bath.now lo.now hi.now }
    ensures { result.items ≡ doses_of dyes.now bath.now lo.now hi.now }
{
    let mut doses = ArrayVec::new();
    for (i, dye) in dyes.iter().enumerate() {
        let step = dye.step();
        doses.push(Dose {
            bath: u32::from(bath[i]) * step,
            from: u32::from(lo[i]) * step,
            upto: u32::from(hi[i]) * step,
        });
    }
    doses
}

/// No steps of any of the dyes, as in an empty bath.
pub fn no_steps(dyes: &[Dye]) -> ArrayVec<u16, 12>
    requires { length dyes.now ≤ 12 }
    ensures { result.items ≡ no_steps dyes.now }
{
    let mut steps = ArrayVec::new();
    for _dye in dyes {
        steps.push(0);
    }
    steps
}

/// Where each dose lies on the line of its dye.
pub(crate) fn places_of(dyes: &[Dye], doses: &[Dose]) -> ArrayVec<Places, 12>
    requires few { length dyes.now ≤ 12 }
    requires doses { length doses.now ≡ length dyes.now }
    ensures { length result.items ≡ length dyes.now }
{
    let mut places = ArrayVec::new();
    for (i, dye) in dyes.iter().enumerate() {
        let dose = doses[i];
        places.push(dye.places(dose.bath, dose.from, dose.upto));
    }
    places
}
