//! The reflectance of a cloth at each wavelength, as intervals.

ghost use Rattle.std.specs.Prelude.{◌≡◌, ◌<◌, ◌≤◌, ◌^◌, Some, pos, length, slice_get};
ghost use Rattle.interval_specs.specs.Operations.{ratio_at};
ghost use Rattle.interval_specs.specs.Ranges.{UpTo};
ghost use Rattle.spectral_tables.specs.Spectrum.{IsSpectrum, ends_of, spectrum_at};

use crate::curve::Curve;
use crate::grid::MOST_WAVES;
use arrayvec::ArrayVec;
use fix_bounds::{Iv, Scale};
use std::marker::{Model, PhantomData};

/// A reflectance for each wavelength of a grid, as an interval within 0 to 1 at the scale `S`. A
/// `wave` is the index of a wavelength.
#[derive(Drop)]
pub struct Spectrum<S: Scale> {
    ends: ArrayVec<(u64, u64), MOST_WAVES>,
    scale: PhantomData<S>,
}

impl<S: Scale> Model for Spectrum<S> {
    ghost use Rattle.std.specs.Prelude.{List, map};
    ghost use Rattle.interval_specs.specs.Ends.{Ends};
    ghost use Rattle.spectral_tables.specs.Spectrum.{IsSpectrum, ends_of};

    ghost Value = { List Ends };

    ghost view = { λ s. map ends_of s.ends.items };

    ghost invariant = { λ s. IsSpectrum S.unit (map ends_of s.ends.items) };
}

/// The ends of an interval within 0 to 1, in parts of the scale, as they are stored.
fn stored_ends<S: Scale>(interval: Iv<S>) -> (u64, u64)
    requires { UpTo S.unit interval }
    ensures { ends_of result ≡ interval }
{
    (interval.lo() as u64, interval.hi() as u64)
}

/// The interval that has these stored ends.
fn interval_of_ends<S: Scale>(ends: (u64, u64)) -> Iv<S>
    requires { UpTo S.unit (ends_of ends) }
    ensures { result ≡ ends_of ends }
{
    Iv::of_ends(i128::from(ends.0), i128::from(ends.1))
}

impl<S: Scale> Spectrum<S> {
    /// The spectrum of these intervals.
    pub fn of(intervals: &[Iv<S>]) -> Spectrum<S>
        requires { IsSpectrum S.unit intervals.now }
        ensures is { result ≡ intervals.now }
        ensures held { IsSpectrum S.unit result }
    {
        let mut stored = ArrayVec::new();
        for interval in intervals {
            stored.push(stored_ends(*interval));
        }
        Spectrum {
            ends: stored,
            scale: PhantomData,
        }
    }

    /// The reflectance at a wavelength.
    pub fn at(&self, wave: usize) -> Iv<S>
        requires { wave < length self.now }
        ensures is { slice_get self.now wave ≡ Some result }
        ensures range { UpTo S.unit result }
        ensures held { IsSpectrum S.unit self.now }
    {
        interval_of_ends(self.ends.as_slice()[wave])
    }

    /// How many wavelengths it has.
    pub fn waves(&self) -> usize
        ensures is { result ≡ length self.now }
        ensures held { IsSpectrum S.unit self.now }
    {
        self.ends.len()
    }
}

/// The reflectance of this many millionths, as an interval.
fn reflectance<S: Scale>(millionths: u32) -> Iv<S>
    requires { millionths ≤ 1000000 }
    ensures is { result ≡ ratio_at S.unit (pos millionths) (10 ^ 6) }
    ensures range { UpTo S.unit result }
{
    Iv::of_ratio(i128::from(millionths), 1_000_000)
}

impl Curve {
    /// The spectrum of the curve: each reflectance is its number of millionths over 10^6.
    #[tactic(auto, unfolding(crate::specs::Spectrum::spectrum_at))]
    pub fn spectrum<S: Scale>(&self) -> Spectrum<S>
        ensures is { result ≡ spectrum_at S.unit self.now }
        ensures held { IsSpectrum S.unit result }
    {
        let mut stored = ArrayVec::new();
        for millionths in self.as_slice() {
            stored.push(stored_ends(reflectance::<S>(*millionths)));
        }
        Spectrum {
            ends: stored,
            scale: PhantomData,
        }
    }
}
