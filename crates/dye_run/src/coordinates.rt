//! Commands that report coordinates of one column under a light.

ghost use Rattle.std.specs.Prelude.{◌≡◌, IfOk, List, ℕ};
ghost use Rattle.spectral_tables.specs.WeightTable.{HasItemEachWave, WeightTable};
ghost use Rattle.run_core.specs.Answers.{Evaluation, lines_of};
ghost use Rattle.run_core.specs.Asking.{reports_on};
ghost use Rattle.dye_run.specs.Coordinates.{coordinates_report};
ghost use Rattle.dye_run.specs.Inputs.{reads_tables};
ghost use Rattle.dye_run.specs.Views.{lit_view, tables_view};

use crate::inputs::read_tables;
use crate::tables::{Tables, curve_from};
use crate::words::LitColumn;
use run_core::{Inquiry, Report, Stop, plain_report};
use shelf_io::Shelf;
use spectral_tables::{Curve, Weights};
use std::alloc::{AllocError, Global};

/// A choice of the coordinates to report of a curve under a light.
pub(crate) trait Coordinates: Copy {
    // the chosen coordinates, each with its label
    ghost evaluations: { Self → WeightTable → List ℕ → List Evaluation };

    /// The text that reports the coordinates: a line for each.
    fn text(self, alloc: Global, weights: &Weights, curve: &Curve) -> Result<Vec<u8>, AllocError>
        requires { HasItemEachWave weights.now curve.now }
        ensures { IfOk result (λ text.
            text.items ≡ lines_of (evaluations self weights.now curve.now)) };
}

/// A column, and which coordinates are reported of it.
#[derive(Clone, Copy)]
pub(crate) struct ColumnReport<'a, C>(pub LitColumn<'a>, pub C);

impl<'a, C: Coordinates> Inquiry<'a> for ColumnReport<'a, C> {
    type Input = Tables;

    ghost asking = { λ c. reports_on (reads_tables c.0.curves.now c.0.weights.now)
        (coordinates_report (C.evaluations c.1) (lit_view c.0)) };

    ghost judged = { λ c tables.
        coordinates_report (C.evaluations c.1) (lit_view c.0) (tables_view tables) };

    fn read<H: Shelf>(self, alloc: Global, shelf: &mut H) -> Result<Tables, Stop<'a>> {
        let ColumnReport(words, _) = self;
        read_tables(alloc, shelf, words.curves, words.weights)
    }

    #[tactic(auto, unfolding(crate::specs::Coordinates::coordinates_report))]
    fn report(self, alloc: Global, tables: &Tables) -> Result<Report<'a>, Stop<'a>> {
        let ColumnReport(words, coordinates) = self;
        let curve = curve_from(words.curves, words.column, &tables.book)?;
        let text = coordinates.text(alloc, &tables.weights, curve)?;
        Ok(plain_report(text))
    }
}
