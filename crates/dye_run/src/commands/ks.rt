//! `ks`: the K/S of one column.

ghost use Rattle.std.specs.Prelude.{◌≡◌, IfOk, map, option_map, string_bytes};
ghost use Rattle.spectral_tables.specs.Grid.{first_of};
ghost use Rattle.spectral_tables.specs.declared.grid.WaveGrid.TheVariants.{Ten};
ghost use Rattle.run_core.specs.Answers.{lines_of};
ghost use Rattle.dye_run.specs.Commands.{asking_of};
ghost use Rattle.dye_run.specs.Forms as form;
ghost use Rattle.dye_run.specs.Ks.{ks_evaluations, ks_report, ks_words};
ghost use Rattle.dye_run.specs.Views.{ks_view};

use crate::inputs::read_book;
use crate::lines::push_enclosure;
use crate::tables::curve_from;
use crate::words::names_file;
use fix_bounds::Base;
use run_core::{Inquiry, Report, Stop, plain_report};
use shelf_io::Shelf;
use spectral_tables::{Curve, CurveBook, WaveGrid};
use std::alloc::{AllocError, Global};

/// The words CURVES COLUMN.
#[derive(Clone, Copy)]
pub(crate) struct Ks<'a> {
    curves: &'a str,
    column: &'a str,
}

impl Ks<'_> {
    pub(crate) fn of_words(words: &[String]) -> Option<Ks<'_>>
        ensures { option_map ks_view result ≡ ks_words (map string_bytes words.now) }
    {
        match words {
            [curves, column] if names_file(curves.as_str()) => Some(Ks {
                curves: curves.as_str(),
                column: column.as_str(),
            }),
            _ => None,
        }
    }
}

impl<'a> Inquiry<'a> for Ks<'a> {
    type Input = CurveBook;

    ghost asking = { λ c. asking_of (form.ks (ks_view c)) };

    ghost judged = { λ c book. ks_report (ks_view c) book };

    fn read<H: Shelf>(self, alloc: Global, shelf: &mut H) -> Result<CurveBook, Stop<'a>> {
        read_book(alloc, shelf, self.curves)
    }

    #[tactic(auto, unfolding(crate::specs::Ks::ks_report))]
    fn report(self, alloc: Global, book: &CurveBook) -> Result<Report<'a>, Stop<'a>> {
        let curve = curve_from(self.curves, self.column, book)?;
        let text = ks_text(alloc, curve)?;
        Ok(plain_report(text))
    }
}

// A line for each wavelength of the curve, with its K/S at the base scale.
fn ks_text(alloc: Global, curve: &Curve) -> Result<Vec<u8>, AllocError>
    ensures { IfOk result (λ text. text.items ≡ lines_of (ks_evaluations (first_of Ten) curve.now)) }
{
    let waves = WaveGrid::Ten.waves();
    let mut text = Vec::new(alloc);
    for wave in 0..curve.waves() {
        let wavelength = usize::from(waves.first) + usize::from(waves.step) * wave;
        let label = format!(in alloc; "{wavelength}")?;
        push_enclosure(
            &mut text,
            label.as_str(),
            ks_curves::ks::<Base>(curve.at(wave)),
        )?;
    }
    Ok(text)
}
