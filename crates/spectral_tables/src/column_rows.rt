//! The rows of a file of columns.

ghost use Rattle.std.specs.Prelude.{◌≡◌, ℕ, ◌+◌, ◌-◌, ◌<◌, ◌≤◌, ◌^◌, ◌==◌, List, [], length, map, vec_len, All, IfOk, drop, slice_index_or};
ghost use Rattle.csv.specs.Records.{fields_of as stored_fields};
ghost use Rattle.spectral_tables.specs.Grid.{count_of};
ghost use Rattle.spectral_tables.specs.Records.{trimmed_fields};
ghost use Rattle.spectral_tables.specs.Rule.{IsInRange, IsRow};
ghost use Rattle.spectral_tables.specs.Faults.{each, Gives};
ghost use Rattle.spectral_tables.specs.Columns.{number_of, next_number, row_of, rows_of, rows_view};

use crate::column_range::ColumnRange;
use crate::column_rule::ColumnRule;
use crate::fault::{Cell, TableError, TableFault, TableRule};
use crate::fields::first_field;
use crate::grid::WaveGrid;
use crate::numbers::{is_wavelength, natural_in, number};
use crate::records::fields_of;
use csv::ByteRecord;
use std::alloc::Global;

/// The number that a field writes, in units of 0.0001: 6.5 is 65,000.
#[tactic(auto, unfolding(crate::specs::Columns::number_of))]
fn number_in(range: ColumnRange, cell: Cell, field: &[u8]) -> Result<u32, TableFault>
    ensures is { result ≡ number_of range cell.row cell.column field.now }
    ensures range { IfOk result (IsInRange range) }
{
    let number = number(field, 4).ok_or(cell.fault(TableRule::BadNumber))?;
    natural_in(number, range.least, range.most).ok_or(cell.fault(TableRule::OutOfRange))
}

/// The numbers of a row, one under each name.
fn numbers<R: ColumnRule>(
    alloc: Global,
    rule: &R,
    names: &[&[u8]],
    row: u32,
    fields: &[&[u8]],
) -> Result<Vec<u32>, TableError>
    requires few { length fields.now < 2 ^ 32 - 2 }
    requires named { length fields.now ≡ length names.now }
    ensures is { Gives (λ v. v.items) result
        (each (next_number (R.rule rule.now) (map (λ n. n.now) names.now) row) []
        (map (λ f. f.now) fields.now)) }
    ensures row { IfOk result (λ v.
        IsRow (R.rule rule.now) (map (λ n. n.now) names.now) v.items) }
{
    let mut numbers = Vec::new(alloc);
    for (i, field) in fields.iter().enumerate() {
        let cell = Cell {
            row,
            column: i as u32 + 2,
        };
        numbers.push(number_in(rule.range(names[i]), cell, *field)?)?;
    }
    Ok(numbers)
}

/// The numbers of the record for the wavelength of index `wave`.
#[tactic(auto, unfolding(crate::specs::Columns::row_of))]
fn row<R: ColumnRule>(
    alloc: Global,
    grid: WaveGrid,
    rule: &R,
    names: &[&[u8]],
    wave: usize,
    fields: &[&[u8]],
) -> Result<Vec<u32>, TableError>
    requires due { wave ≤ count_of grid }
    requires few { length fields.now < 2 ^ 32 - 2 }
    ensures is { Gives (λ v. v.items) result
        (row_of (R.rule rule.now) grid (map (λ n. n.now) names.now) wave
        (map (λ f. f.now) fields.now)) }
    ensures row { IfOk result (λ v.
        IsRow (R.rule rule.now) (map (λ n. n.now) names.now) v.items) }
    ensures bound { IfOk result (λ v. wave < count_of grid) }
{
    let count = grid.waves().count;
    let row = wave as u32 + 2;
    let start = Cell { row, column: 1 };
    start.ensure(wave < count, TableRule::BadWavelength)?;
    let end = Cell {
        row,
        column: fields.len() as u32,
    };
    end.ensure(fields.len() == names.len() + 1, TableRule::WrongCount)?;
    start.ensure(
        is_wavelength(first_field(fields), grid.wavelength(wave)),
        TableRule::BadWavelength,
    )?;
    numbers(alloc, rule, names, row, &fields[1..])
}

fn next_row<R: ColumnRule>(
    alloc: Global,
    grid: WaveGrid,
    rule: &R,
    names: &[&[u8]],
    wave: usize,
    line: &ByteRecord,
) -> Result<Vec<u32>, TableError>
    requires due { wave ≤ count_of grid }
    requires few { length (stored_fields line.now) < 2 ^ 32 - 2 }
    ensures is { Gives (λ v. v.items) result
        (row_of (R.rule rule.now) grid (map (λ n. n.now) names.now) wave
        (trimmed_fields (stored_fields line.now))) }
    ensures row { IfOk result (λ v.
        IsRow (R.rule rule.now) (map (λ n. n.now) names.now) v.items) }
    ensures bound { IfOk result (λ v. wave < count_of grid) }
{
    let fields = fields_of(alloc, line)?;
    row(alloc, grid, rule, names, wave, &fields)
}

/// The numbers of the records of all wavelengths.
#[tactic(auto, unfolding(crate::specs::Columns::rows_of))]
pub(crate) fn rows_of<R: ColumnRule>(
    alloc: Global,
    grid: WaveGrid,
    rule: &R,
    names: &[&[u8]],
    records: &[ByteRecord],
) -> Result<Vec<Vec<u32>>, TableError>
    requires few { All (λ r. length (stored_fields r) < 2 ^ 32 - 2) records.now }
    ensures is { Gives rows_view result
        (rows_of (R.rule rule.now) grid (map (λ n. n.now) names.now)
        (map stored_fields records.now)) }
    ensures count { IfOk result (λ v. vec_len v ≡ count_of grid) }
    ensures shape { IfOk result (λ v.
        All (IsRow (R.rule rule.now) (map (λ n. n.now) names.now)) (rows_view v)) }
{
    let count = grid.waves().count;
    let mut rows = Vec::new(alloc);
    for line in records {
        let row = next_row(alloc, grid, rule, names, rows.len(), line)?;
        rows.push(row)?;
    }
    let end = Cell {
        row: rows.len() as u32 + 2,
        column: 1,
    };
    end.ensure(rows.len() == count, TableRule::BadWavelength)?;
    Ok(rows)
}
