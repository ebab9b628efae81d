//! Reading a curve file.

ghost use Rattle.std.specs.Prelude.{◌≡◌, ◌≤◌, length, IfOk};
ghost use Rattle.spectral_tables.specs.CurveBook.{IsBook, wave_count};
ghost use Rattle.spectral_tables.specs.Faults.{Gives};
ghost use Rattle.spectral_tables.specs.Grid.{count_of};
ghost use Rattle.spectral_tables.specs.CurveFile.{curve_table_of};
ghost use Rattle.spectral_tables.specs.declared.records.TheConstants.{TABLE_LIMIT};

use crate::column_file::read_columns;
use crate::curve_book::CurveBook;
use crate::curve_columns::book_of;
use crate::curve_rule::CurveRule;
use crate::fault::TableError;
use crate::grid::WaveGrid;
use std::alloc::Global;

/// The curves of a file of at most [`TABLE_LIMIT`](crate::TABLE_LIMIT) bytes, by name in the order
/// of their columns.
///
/// It is a file of columns, as [`read_columns`] reads them, whose names are any names of curves
/// (see [`is_name`](crate::is_name)), and whose numbers are percentages from 0.01 to 100.
///
/// The error is the first fault with its row and column, or that memory has run out.
#[tactic(auto, unfolding(crate::specs::CurveFile::curve_table_of))]
pub fn read_curves(alloc: Global, bytes: &[u8], grid: WaveGrid) -> Result<CurveBook, TableError>
    requires { length bytes.now ≤ TABLE_LIMIT }
    ensures exact { Gives (λ b. b) result (curve_table_of grid bytes.now) }
    ensures held { IfOk result IsBook }
    ensures waves { IfOk result (λ b. wave_count b ≡ count_of grid) }
{
    let columns = read_columns(alloc, bytes, grid, &CurveRule)?;
    Ok(book_of(alloc, grid, &columns)?)
}
