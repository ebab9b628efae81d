//! The K/S of a mixture: of the cloth and of the dyes on it together.

ghost use Rattle.std.specs.Prelude.{◌≡◌, ◌+◌, ◌*◌, ◌^◌, ◌<◌, ◌≤◌, ℕ, Some, length, slice_get};
ghost use Rattle.interval_specs.specs.Encloses.{Encloses};
ghost use Rattle.interval_specs.specs.Ranges.{MagnitudeUpTo};
ghost use Rattle.spectral_tables.specs.Spectrum.{IsSpectrum};
ghost use Rattle.mix_model.specs.Mixture.{CanDose, CanMix, CanMixDoses, dosed, mixture_ks_at, portions, reflectances_of};
ghost use Rattle.mix_model.specs.Narrowing.{CanNarrow, narrowed_at, replaced};
ghost use Rattle.mix_model.specs.Sums.{AreNarrowed, AreOfRange, AreSums, IsSubrange};

use crate::base::BaseCurve;
use crate::dose::{Dose, doses_of, places_of};
use crate::reflectance::reflect;
use arrayvec::ArrayVec;
use fix_bounds::{Iv, Scale};
use ks_curves::{Dye, Places, addition_placed, addition_range_placed};
use spectral_tables::{MOST_WAVES, Spectrum};
use std::marker::Model;

/// At each wavelength the K/S of a cloth plus what dyes add to it, at the scale `S`. An addition to
/// a bath may lower K/S, so a sum may be below 0: it is cut only where it is turned into a
/// reflectance.
///
/// It is kept for a box of recipes, so that a box within it needs one dye's contribution anew.
#[derive(Drop)]
pub struct Sums<S: Scale> {
    ends: ArrayVec<Iv<S>, MOST_WAVES>,
}

impl<S: Scale> Model for Sums<S> {
    ghost use Rattle.std.specs.Prelude.{List};
    ghost use Rattle.interval_specs.specs.Ends.{Ends};
    ghost use Rattle.mix_model.specs.Sums.{AreSums};

    ghost Value = { List Ends };

    ghost view = { λ s. s.ends.items };

    ghost invariant = { λ s. AreSums S.unit s.ends.items };
}

/// The sum at a wavelength. The places of the doses were found before, for all wavelengths.
pub(crate) fn sum_at<S: Scale>(
    base: &BaseCurve<S>,
    dyes: &[Dye],
    doses: &[Dose],
    places: &[Places],
    wave: usize,
) -> Iv<S>
    requires wave { wave < length base.now }
    requires placed { length places.now ≡ length dyes.now }
    requires adds { CanDose (length base.now) dyes.now doses.now }
    ensures is { slice_get (mixture_ks_at S.unit base.now (dosed dyes.now doses.now)) wave
        ≡ Some result }
    ensures range { MagnitudeUpTo (10 ^ 10 * S.unit) result }
{
    let mut sum = base.at(wave);
    for (i, dye) in dyes.iter().enumerate() {
        let dose = doses[i];
        sum = sum.add(addition_placed(dye, dose.bath, dose.from, dose.upto, wave, &places[i]));
    }
    sum
}

/// A sum in which one contribution takes the place of another. No end is rounded.
fn replaced<S: Scale>(sum: Iv<S>, old: Iv<S>, new: Iv<S>) -> Iv<S>
    requires { Encloses 1 sum (replaced sum old new) }
    ensures { result ≡ replaced sum old new }
{
    Iv::of_ends(
        sum.lo() - old.lo() + new.lo(),
        sum.hi() - old.hi() + new.hi(),
    )
}

/// The sum at a wavelength with `new` steps of a dye in place of `old` ones. The places of both were
/// found before, for all wavelengths.
fn narrowed_at<S: Scale>(
    sum: Iv<S>,
    dye: &Dye,
    bath: u16,
    old: (u16, u16),
    new: (u16, u16),
    wave: usize,
    places: &(Places, Places),
) -> Iv<S>
    requires { CanNarrow S.unit sum dye.now wave bath old new }
    ensures { result ≡ narrowed_at S.unit sum dye.now wave bath old new }
{
    let before = addition_range_placed(dye, bath, old.0, old.1, wave, &places.0);
    let after = addition_range_placed(dye, bath, new.0, new.1, wave, &places.1);
    replaced(sum, before, after)
}

impl<S: Scale> Sums<S> {
    /// The sums of all recipes of a box: `lo` to `hi` steps of each dye, in the order of the dyes,
    /// on a base, where the steps in `bath` are on the cloth.
    pub fn of(base: &BaseCurve<S>, dyes: &[Dye], bath: &[u16], lo: &[u16], hi: &[u16]) -> Sums<S>
        requires { CanMix S.unit base.now dyes.now bath.now lo.now hi.now }
        ensures is { result
            ≡ mixture_ks_at S.unit base.now (portions dyes.now bath.now lo.now hi.now) }
        ensures held { AreSums S.unit result }
    {
        let doses = doses_of(dyes, bath, lo, hi);
        Self::of_doses(base, dyes, doses.as_slice())
    }

    /// The sums of all mixtures with these doses, one of each dye in the order of the dyes.
    pub fn of_doses(base: &BaseCurve<S>, dyes: &[Dye], doses: &[Dose]) -> Sums<S>
        requires { CanMixDoses S.unit base.now dyes.now doses.now }
        ensures is { result ≡ mixture_ks_at S.unit base.now (dosed dyes.now doses.now) }
        ensures held { AreSums S.unit result }
    {
        let places = places_of(dyes, doses);
        let mut ends = ArrayVec::new();
        for wave in 0..base.waves() {
            ends.push(sum_at(base, dyes, doses, places.as_slice(), wave));
        }
        Sums { ends }
    }

    /// The sums of a box within that of these sums: the dye of index `dye` has the steps `new` in
    /// place of `old`, each given as its fewest and its most.
    pub fn narrow(
        &self,
        dyes: &[Dye],
        bath: &[u16],
        dye: usize,
        old: (u16, u16),
        new: (u16, u16),
    ) -> Sums<S>
        requires sums { AreOfRange S.unit self.now dyes.now bath.now dye old }
        requires within { IsSubrange old new }
        ensures { AreNarrowed S.unit self.now result dyes.now bath.now dye old new }
    {
        let part = &dyes[dye];
        let steps = bath[dye];
        let places = (
            part.places_of_steps(steps, old.0, old.1),
            part.places_of_steps(steps, new.0, new.1),
        );
        let mut ends = ArrayVec::new();
        for wave in 0..self.ends.len() {
            let sum = self.ends.as_slice()[wave];
            ends.push(narrowed_at(sum, part, steps, old, new, wave, &places));
        }
        Sums { ends }
    }

    /// The sum at a wavelength, by its index.
    pub fn at(&self, wave: usize) -> Iv<S>
        requires { wave < length self.now }
        ensures is { slice_get self.now wave ≡ Some result }
        ensures held { AreSums S.unit self.now }
    {
        self.ends.as_slice()[wave]
    }

    /// How many wavelengths there are.
    pub fn waves(&self) -> usize
        ensures is { result ≡ length self.now }
        ensures held { AreSums S.unit self.now }
    {
        self.ends.len()
    }

    /// The reflectances of the mixtures.
    pub fn spectrum(&self) -> Spectrum<S>
        ensures is { result ≡ reflectances_of S.unit self.now }
        ensures held { IsSpectrum S.unit result }
    {
        let mut reflectances: ArrayVec<Iv<S>, MOST_WAVES> = ArrayVec::new();
        for sum in self.ends.as_slice() {
            reflectances.push(reflect(sum.cut_low(0)));
        }
        Spectrum::of(reflectances.as_slice())
    }
}
