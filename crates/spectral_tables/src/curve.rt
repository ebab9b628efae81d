//! A measured reflectance curve.

ghost use Rattle.std.specs.Prelude.{◌≡◌, ◌<◌, length, slice_index};
ghost use Rattle.spectral_tables.specs.Curve.{IsCurve, IsReflectance};

use crate::grid::MOST_WAVES;
use arrayvec::ArrayVec;
use std::alloc::AllocError;
use std::marker::Model;

/// The reflectances of one cloth in millionths, by rising wavelength: one for each wavelength of a
/// grid.
///
/// A `wave` is the index of a wavelength.
#[derive(Debug, Drop)]
pub struct Curve {
    millionths: ArrayVec<u32, MOST_WAVES>,
}

impl Model for Curve {
    ghost use Rattle.std.specs.Prelude.{ℕ, List};
    ghost use Rattle.spectral_tables.specs.Curve.{IsCurve};

    ghost Value = { List ℕ };

    ghost view = { λ c. c.millionths.items };

    ghost invariant = { λ c. IsCurve c.millionths.items };
}

impl Curve {
    /// The curve of these reflectances in millionths.
    pub fn of(millionths: &[u32]) -> Curve
        requires { IsCurve millionths.now }
        ensures is { result ≡ millionths.now }
        ensures held { IsCurve result }
    {
        let mut stored = ArrayVec::new();
        for reflectance in millionths {
            stored.push(*reflectance);
        }
        Curve { millionths: stored }
    }

    /// The reflectance at a wavelength, in millionths.
    pub fn at(&self, wave: usize) -> u32
        requires { wave < length self.now }
        ensures is { result ≡ slice_index self.now wave }
        ensures range { IsReflectance result }
        ensures held { IsCurve self.now }
    {
        self.millionths.as_slice()[wave]
    }

    /// How many wavelengths it has.
    pub fn waves(&self) -> usize
        ensures is { result ≡ length self.now }
        ensures held { IsCurve self.now }
    {
        self.millionths.len()
    }

    /// Its reflectances in millionths.
    pub fn as_slice(&self) -> &[u32]
        ensures is { result.now ≡ self.now }
        ensures held { IsCurve self.now }
    {
        self.millionths.as_slice()
    }
}

impl Clone for Curve {
    ghost use Rattle.std.specs.Prelude.{⊤};

    ghost is_clone = { λ c d. d ≡ c };

    ghost is_infallible = { λ _. ⊤ };

    fn clone(&self) -> Result<Curve, AllocError> {
        Ok(Curve::of(self.as_slice()))
    }
}

/// A cloth that reflects all light.
impl Default for Curve {
    ghost use Rattle.spectral_tables.specs.Curve.{full_curve};

    ghost is_default = { λ c. c ≡ full_curve };

    fn default() -> Curve {
        Curve::of(&[1_000_000; MOST_WAVES])
    }
}
