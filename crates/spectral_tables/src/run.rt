//! The rows of a weights file, by rising wavelength.

ghost use Rattle.std.specs.Prelude.{◌≡◌, ◌+◌, ◌*◌, ◌≤◌, ◌<◌, ◌^◌, ◌++◌, [], ◌∷◌, length, IfOk, IfSome, OnOk, option_and_then, if◌then◌else◌, ◌==◌, IsTrue};
ghost use Rattle.dec_text.specs.Decimal.{decimal_of};
ghost use Rattle.spectral_tables.specs.WeightTable.{IsTriple};
ghost use Rattle.spectral_tables.specs.Fold.{fold_of};
ghost use Rattle.spectral_tables.specs.Run.{Rows, IsRun, no_rows, following_row, following_wavelength, reaches_end, is_due, due_wavelength, rows_with};

use crate::folding::fold;
use crate::grid::{MOST_WAVES, WaveGrid};
use crate::numbers::{natural_in, number};
use arrayvec::ArrayVec;
use std::alloc::{AllocError, Global};
use std::marker::Model;

/// The rows that have been read: their grid, the first wavelength in nanometres, 300 where there is
/// none yet, and the weights of each row.
#[derive(Drop)]
pub(crate) struct Run {
    grid: WaveGrid,
    first: u16,
    triples: Vec<[i64; 3]>,
}

impl Model for Run {
    ghost use Rattle.spectral_tables.specs.Fold.{fold_of};
    ghost use Rattle.spectral_tables.specs.Run.{Rows, IsRun};

    ghost Value = { Rows };

    ghost view = { λ r. record { grid = r.grid; first = r.first; triples = r.triples.items } };

    ghost invariant = { λ r. IsRun (record { grid = r.grid; first = r.first; triples = r.triples.items }) };
}

impl Run {
    pub(crate) fn new(alloc: Global, grid: WaveGrid) -> Run
        ensures { result ≡ no_rows grid }
    {
        Run {
            grid,
            first: 300,
            triples: Vec::new(alloc),
        }
    }

    pub(crate) fn triples(&self) -> &[[i64; 3]]
        ensures is { result.now ≡ self.now.triples }
        ensures held { IsRun self.now }
    {
        self.triples.as_slice()
    }

    /// The weights of the grid, from rows that reach its last wavelength.
    pub(crate) fn folded(&self) -> ArrayVec<[i64; 3], MOST_WAVES>
        requires { IsTrue (reaches_end self.now) }
        ensures is { result.items ≡ fold_of self.now.grid self.now.first self.now.triples }
        ensures held { IsRun self.now }
    {
        fold(self.grid, self.first, self.triples.as_slice())
    }

    /// The number of the record that follows the rows.
    pub(crate) fn following_row(&self) -> u32
        ensures is { result ≡ following_row self.now }
        ensures few { result ≤ 60 }
    {
        self.triples.len() as u32 + 2
    }

    /// The wavelength that follows the last row, 300 where there is none.
    fn following_wavelength(&self) -> u32
        ensures is { result ≡ following_wavelength self.now }
        ensures held { IsRun self.now }
    {
        u32::from(self.first) + u32::from(self.grid.waves().step) * self.triples.len() as u32
    }

    /// Whether the rows reach the last wavelength of the grid.
    pub(crate) fn reaches_end(&self) -> bool
        ensures { result ≡ reaches_end self.now }
    {
        let waves = self.grid.waves();
        let end = u32::from(waves.first) + u32::from(waves.step) * waves.count as u32;
        end <= self.following_wavelength()
    }

    /// Whether the next row may have this wavelength, which is in range.
    fn is_due(&self, nm: u32) -> bool
        ensures { result ≡ is_due self.now nm }
    {
        if self.triples.is_empty() {
            let waves = self.grid.waves();
            nm % u32::from(waves.step) == 0 && nm <= u32::from(waves.first)
        } else {
            nm == self.following_wavelength()
        }
    }

    /// The wavelength that a field writes, where the next row may have it.
    #[tactic(auto, unfolding(crate::specs::Run::due_wavelength))]
    pub(crate) fn due_wavelength(&self, field: &[u8]) -> Option<u32>
        ensures is { result ≡ due_wavelength self.now field.now }
        ensures due { IfSome result (λ nm. (300 ≤ nm) × (nm ≤ 830) × IsTrue (is_due self.now nm)) }
    {
        let nm = natural_in(number(field, 0)?, 300, 830)?;
        if self.is_due(nm) { Some(nm) } else { None }
    }

    /// The rows with one more.
    pub(crate) fn with(self, nm: u32, triple: [i64; 3]) -> Result<Run, AllocError>
        requires range { (300 ≤ nm) × (nm ≤ 830) }
        requires due { IsTrue (is_due self nm) }
        requires magnitudes { IsTriple triple }
        ensures { IfOk result (λ r. r ≡ rows_with self nm triple) }
    {
        let Run {
            grid,
            first,
            mut triples,
        } = self;
        let first = if triples.is_empty() { nm as u16 } else { first };
        triples.push(triple)?;
        Ok(Run {
            grid,
            first,
            triples,
        })
    }
}
