//! The rows of a weights file.

ghost use Rattle.std.specs.Prelude.{◌≡◌, ◌+◌, ◌*◌, ◌≤◌, ◌<◌, ◌^◌, [], true, ℤ, pos, ◌<ℤ◌, length, map, drop, All, IfOk, unsigned_abs, IsTrue};
ghost use Rattle.spectral_tables.specs.Faults.{each, Gives};
ghost use Rattle.spectral_tables.specs.WeightTable.{IsTriple, at_column};
ghost use Rattle.spectral_tables.specs.Run.{reaches_end};
ghost use Rattle.spectral_tables.specs.WeightFile.{weight_of, next_weight, with_row, white_of, IsWhite};

use crate::fault::{Cell, TableError, TableFault, TableRule};
use crate::fields::first_field;
use crate::numbers::number;
use crate::run::Run;

/// The weight that a field writes, or the white value, in units of 0.00001.
#[tactic(auto, unfolding(crate::specs::WeightFile::weight_of))]
fn weight(is_white: bool, cell: Cell, field: &[u8]) -> Result<i64, TableFault>
    ensures is { result ≡ weight_of is_white cell.row cell.column field.now }
    ensures small { IfOk result (λ z. unsigned_abs z ≤ 10 ^ 8) }
    ensures positive { is_white ≡ true → IfOk result (λ z. pos 0 <ℤ z) }
{
    let number = number(field, 5).ok_or(cell.fault(TableRule::BadNumber))?;
    cell.ensure(!is_white || 0 < number, TableRule::WhiteNotPositive)?;
    cell.ensure(number.unsigned_abs() <= 100_000_000, TableRule::OutOfRange)?;
    Ok(number)
}

/// The three weights, or white values, of a row.
fn triple(is_white: bool, row: u32, fields: &[&[u8]]) -> Result<[i64; 3], TableFault>
    requires { length fields.now ≡ 4 }
    ensures is { result
        ≡ each (next_weight is_white row) [] (drop 1 (map (λ f. f.now) fields.now)) }
    ensures triple { IfOk result IsTriple }
    ensures positive { is_white ≡ true → IfOk result IsWhite }
{
    let x = weight(is_white, Cell { row, column: 2 }, fields[1])?;
    let y = weight(is_white, Cell { row, column: 3 }, fields[2])?;
    let z = weight(is_white, Cell { row, column: 4 }, fields[3])?;
    Ok([x, y, z])
}

/// The rows with the record of the next wavelength added.
#[tactic(auto, unfolding(crate::specs::WeightFile::with_row))]
pub(crate) fn with_row(run: Run, fields: &[&[u8]]) -> Result<Run, TableError>
    requires { length fields.now ≡ 4 }
    ensures is { Gives (λ r. r) result (with_row run (map (λ f. f.now) fields.now)) }
    ensures grid { IfOk result (λ r. r.grid ≡ run.grid) }
{
    let row = run.following_row();
    let start = Cell { row, column: 1 };
    let due = run.due_wavelength(first_field(fields));
    let nm = due.ok_or(start.fault(TableRule::BadWavelength))?;
    let weights = triple(false, row, fields)?;
    Ok(run.with(nm, weights)?)
}

/// The white values, from the record that follows the rows.
#[tactic(auto, unfolding(crate::specs::WeightFile::white_of))]
pub(crate) fn white_of(run: &Run, fields: &[&[u8]]) -> Result<[i64; 3], TableFault>
    requires { length fields.now ≡ 4 }
    ensures is { result ≡ white_of run.now (map (λ f. f.now) fields.now) }
    ensures white { IfOk result IsWhite }
    ensures end { IfOk result (λ _. IsTrue (reaches_end run.now)) }
{
    let row = run.following_row();
    let start = Cell { row, column: 1 };
    start.ensure(run.reaches_end(), TableRule::BadWavelength)?;
    triple(true, row, fields)
}
