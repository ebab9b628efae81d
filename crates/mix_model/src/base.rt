//! The cloth that dyes are added to.

ghost use Rattle.std.specs.Prelude.{◌≡◌, ◌<◌, ◌≤◌, ◌*◌, ◌^◌, ℕ, Some, length, slice_get};
ghost use Rattle.interval_specs.specs.Ranges.{UpTo};
ghost use Rattle.spectral_tables.specs.Spectrum.{ends_of};
ghost use Rattle.mix_model.specs.Base.{IsBase, base_at};

use arrayvec::ArrayVec;
use fix_bounds::{Iv, Scale};
use ks_curves::ks;
use spectral_tables::{Curve, MOST_WAVES};
use std::marker::{Model, PhantomData};

/// The K/S of a measured curve at each wavelength, at the scale `S`. A `wave` is the index of a
/// wavelength.
#[derive(Drop)]
pub struct BaseCurve<S: Scale> {
    values: ArrayVec<(u64, u64), MOST_WAVES>,
    scale: PhantomData<S>,
}

impl<S: Scale> Model for BaseCurve<S> {
    ghost use Rattle.std.specs.Prelude.{List, map};
    ghost use Rattle.interval_specs.specs.Ends.{Ends};
    ghost use Rattle.spectral_tables.specs.Spectrum.{ends_of};
    ghost use Rattle.mix_model.specs.Base.{IsBase};

    ghost Value = { List Ends };

    ghost view = { λ b. map ends_of b.values.items };

    ghost invariant = { λ b. IsBase S.unit (map ends_of b.values.items) };
}

/// The ends of K/S, in parts of the scale.
fn stored_ends<S: Scale>(ks: Iv<S>) -> (u64, u64)
    requires { UpTo (5000 * S.unit) ks }
    ensures { ends_of result ≡ ks }
{
    (ks.lo() as u64, ks.hi() as u64)
}

/// The interval of stored ends.
fn interval_of<S: Scale>(ends: (u64, u64)) -> Iv<S>
    requires { UpTo (5000 * S.unit) (ends_of ends) }
    ensures { result ≡ ends_of ends }
{
    Iv::of_ends(i128::from(ends.0), i128::from(ends.1))
}

impl<S: Scale> BaseCurve<S> {
    /// The K/S of a measured curve.
    #[tactic(auto, unfolding(crate::specs::Base::base_at))]
    pub fn of(curve: &Curve) -> BaseCurve<S>
        ensures is { result ≡ base_at S.unit curve.now }
        ensures held { IsBase S.unit result }
    {
        let mut values = ArrayVec::new();
        for millionths in curve.as_slice() {
            values.push(stored_ends(ks::<S>(*millionths)));
        }
        BaseCurve {
            values,
            scale: PhantomData,
        }
    }

    /// The K/S at a wavelength.
    pub fn at(&self, wave: usize) -> Iv<S>
        requires { wave < length self.now }
        ensures is { slice_get self.now wave ≡ Some result }
        ensures range { UpTo (5000 * S.unit) result }
        ensures held { IsBase S.unit self.now }
    {
        interval_of(self.values.as_slice()[wave])
    }

    /// How many wavelengths it has.
    pub fn waves(&self) -> usize
        ensures is { result ≡ length self.now }
        ensures held { IsBase S.unit self.now }
    {
        self.values.len()
    }
}
