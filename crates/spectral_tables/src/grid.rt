//! The grids of wavelengths.

ghost use Rattle.std.specs.Prelude.{◌≡◌, ◌<◌};
ghost use Rattle.spectral_tables.specs.Grid.{IsWaves, waves_of, wavelength_at, count_of};

use crate::waves::Waves;

/// The most wavelengths that a grid has.
pub const MOST_WAVES: usize = 40;

/// A grid of wavelengths: curves and weights have one reflectance, or three weights, for each.
#[derive(Clone, Copy, Debug, PartialEq, Eq)]
pub enum WaveGrid {
    /// 400 to 700 nm in steps of 10 nm.
    Ten,
    /// 400 to 700 nm in steps of 20 nm.
    Twenty,
    /// 360 to 750 nm in steps of 10 nm.
    Wide,
}

impl WaveGrid {
    /// The first wavelength, the step and the number of wavelengths.
    pub fn waves(self) -> Waves
        ensures is { result ≡ waves_of self }
        ensures held { IsWaves result }
    {
        match self {
            WaveGrid::Ten => Waves {
                first: 400,
                step: 10,
                count: 31,
            },
            WaveGrid::Twenty => Waves {
                first: 400,
                step: 20,
                count: 16,
            },
            WaveGrid::Wide => Waves {
                first: 360,
                step: 10,
                count: 40,
            },
        }
    }

    /// The wavelength of an index, in nanometres.
    #[tactic(auto, using(crate::proofs::GridFacts::wavelength_small))]
    pub fn wavelength(self, wave: usize) -> u32
        requires { wave < count_of self }
        ensures { result ≡ wavelength_at self wave }
    {
        let waves = self.waves();
        u32::from(waves.first) + u32::from(waves.step) * wave as u32
    }
}
