//! The weights of a light and observer.

ghost use Rattle.std.specs.Prelude.{◌≡◌, ◌<◌, [], length, slice_index_or};
ghost use Rattle.spectral_tables.specs.WeightTable.{IsWeightTable};

use crate::grid::MOST_WAVES;
use arrayvec::ArrayVec;
use std::alloc::AllocError;
use std::marker::Model;

/// The weights of a light and observer for X, Y and Z, in units of 0.00001: three for each
/// wavelength of a grid, and the values of white. A `wave` is the index of a wavelength.
#[derive(Debug, Drop)]
pub struct Weights {
    pub(crate) weights: ArrayVec<[i64; 3], MOST_WAVES>,
    pub(crate) white: [i64; 3],
}

impl Model for Weights {
    ghost use Rattle.spectral_tables.specs.WeightTable.{WeightTable, IsWeightTable};

    ghost Value = { WeightTable };

    ghost view = { λ w. record { weights = w.weights.items; white = w.white } };

    ghost invariant = { λ w. IsWeightTable (record { weights = w.weights.items; white = w.white }) };
}

impl Weights {
    /// The weights of a wavelength.
    pub fn at(&self, wave: usize) -> [i64; 3]
        requires { wave < length self.now.weights }
        ensures is { result ≡ slice_index_or self.now.weights wave [] }
        ensures held { IsWeightTable self.now }
    {
        self.weights.as_slice()[wave]
    }

    /// How many wavelengths there are.
    pub fn waves(&self) -> usize
        ensures is { result ≡ length self.now.weights }
        ensures held { IsWeightTable self.now }
    {
        self.weights.len()
    }

    /// The values of white, each above 0 and at least half the sum of the magnitudes of its column.
    pub fn white(&self) -> [i64; 3]
        ensures is { result ≡ self.now.white }
        ensures held { IsWeightTable self.now }
    {
        self.white
    }
}

impl Clone for Weights {
    ghost use Rattle.std.specs.Prelude.{⊤};

    ghost is_clone = { λ source copy. copy ≡ source };

    ghost is_infallible = { λ _. ⊤ };

    fn clone(&self) -> Result<Weights, AllocError> {
        let mut weights = ArrayVec::new();
        for triple in self.weights.as_slice() {
            weights.push(*triple);
        }
        Ok(Weights {
            weights,
            white: self.white,
        })
    }
}
