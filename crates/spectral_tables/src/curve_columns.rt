//! The curves of a file: its columns under their names.

ghost use Rattle.std.specs.Prelude.{◌≡◌, ◌<◌, [], length, map, All, IfOk};
ghost use Rattle.spectral_tables.specs.Curve.{IsCurve, IsReflectance};
ghost use Rattle.spectral_tables.specs.CurveBook.{wave_count};
ghost use Rattle.spectral_tables.specs.CurveFile.{column_of, curve_rule, curves_under};
ghost use Rattle.spectral_tables.specs.Columns.{IsColumnTable, table_view, rows_view};
ghost use Rattle.spectral_tables.specs.Grid.{IsWaveCount, count_of};

use crate::columns::Columns;
use crate::curve::Curve;
use crate::curve_book::CurveBook;
use crate::grid::{MOST_WAVES, WaveGrid};
use arrayvec::ArrayVec;
use indexmap::IndexMap;
use std::alloc::{AllocError, Global};

/// The curve of a column: the value of each row in this column.
#[tactic(auto, using(crate::proofs::GridFacts::few_waves))]
fn curve_of(rows: &[Vec<u32>], column: usize) -> Curve
    requires waves { IsWaveCount (length rows.now) }
    requires has_column { All (λ row. column < length row.items) rows.now }
    requires range { All (λ row. All IsReflectance row.items) rows.now }
    ensures is { result ≡ column_of column (map (λ row. row.items) rows.now) }
    ensures held { IsCurve result }
{
    let mut values: ArrayVec<u32, MOST_WAVES> = ArrayVec::new();
    for row in rows {
        values.push(row[column]);
    }
    Curve::of(values.as_slice())
}

/// The curves of columns that keep the rule of curves.
pub(crate) fn book_of(
    alloc: Global,
    grid: WaveGrid,
    columns: &Columns,
) -> Result<CurveBook, AllocError>
    requires { IsColumnTable curve_rule grid (table_view columns.now) }
    ensures is { IfOk result (λ b. b
        ≡ curves_under [] (rows_view columns.now.rows) (rows_view columns.now.names)) }
    ensures waves { IfOk result (λ b. wave_count b ≡ count_of grid) }
{
    let mut curves = IndexMap::new(alloc);
    for (column, name) in columns.names.iter().enumerate() {
        let owned = Vec::from_slice(alloc, name)?;
        curves.insert(owned, curve_of(&columns.rows, column))?;
    }
    Ok(CurveBook { curves })
}
