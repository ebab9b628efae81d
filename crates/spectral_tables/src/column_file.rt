//! Reading a file of columns.

ghost use Rattle.std.specs.Prelude.{◌≡◌, ℕ, ◌-◌, ◌<◌, ◌≤◌, ◌^◌, length, map, All, IfOk};
ghost use Rattle.csv.specs.Records.{fields_of as stored_fields};
ghost use Rattle.spectral_tables.specs.Faults.{Gives};
ghost use Rattle.spectral_tables.specs.Columns.{IsColumnTable, columns_of, column_table_of, rows_view, table_view};
ghost use Rattle.spectral_tables.specs.declared.records.TheConstants.{TABLE_LIMIT};

use crate::column_header::names_of;
use crate::column_rows::rows_of;
use crate::column_rule::ColumnRule;
use crate::columns::Columns;
use crate::fault::{Cell, TableError, TableRule};
use crate::grid::WaveGrid;
use crate::records::{fields_of, records_of};
use csv::ByteRecord;
use std::alloc::{AllocError, Global};

fn owned(alloc: Global, names: &[&[u8]]) -> Result<Vec<Vec<u8>>, AllocError>
    ensures { IfOk result (λ v. rows_view v ≡ map (λ n. n.now) names.now) }
{
    let mut owned = Vec::new(alloc);
    for name in names {
        owned.push(Vec::from_slice(alloc, *name)?)?;
    }
    Ok(owned)
}

#[tactic(auto, unfolding(crate::specs::Columns::columns_of))]
fn columns_of<R: ColumnRule>(
    alloc: Global,
    grid: WaveGrid,
    rule: &R,
    records: &[ByteRecord],
) -> Result<Columns, TableError>
    requires { All (λ r. length (stored_fields r) < 2 ^ 32 - 2) records.now }
    ensures is { Gives table_view result
        (columns_of (R.rule rule.now) grid (map stored_fields records.now)) }
    ensures kept { IfOk result (λ c. IsColumnTable (R.rule rule.now) grid (table_view c)) }
{
    let [header, lines @ ..] = records else {
        let start = Cell { row: 1, column: 1 };
        return Err(TableError::Fault(start.fault(TableRule::NoHeader)));
    };
    let fields = fields_of(alloc, header)?;
    let names = names_of(alloc, rule, &fields)?;
    let rows = rows_of(alloc, grid, rule, &names, lines)?;
    let names = owned(alloc, &names)?;
    Ok(Columns { names, rows })
}

/// The columns of a file of at most [`TABLE_LIMIT`](crate::TABLE_LIMIT) bytes, by a rule.
///
/// The first record is `nm` and 1 to 64 names that the rule has, no two alike. Each further record
/// is a wavelength, those of the grid in turn, and under each name a number in its range with up to
/// four decimals. A byte order mark and spaces and tabs around a field are ignored.
///
/// The error is the first fault with its row and column, or that memory has run out.
pub fn read_columns<R: ColumnRule>(
    alloc: Global,
    bytes: &[u8],
    grid: WaveGrid,
    rule: &R,
) -> Result<Columns, TableError>
    requires { length bytes.now ≤ TABLE_LIMIT }
    ensures exact { Gives table_view result
        (column_table_of (R.rule rule.now) grid bytes.now) }
    ensures kept { IfOk result (λ c. IsColumnTable (R.rule rule.now) grid (table_view c)) }
{
    let records = records_of(alloc, bytes)?;
    columns_of(alloc, grid, rule, &records)
}
