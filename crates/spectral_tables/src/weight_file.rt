//! Reading a weights file.

ghost use Rattle.std.specs.Prelude.{◌≡◌, ℕ, ◌+◌, ◌-◌, ◌*◌, ◌<◌, ◌≤◌, ◌^◌, IsTrue, length, map, take, sum_by, All, IfOk, unsigned_abs};
ghost use Rattle.csv.specs.Records.{fields_of as stored_fields};
ghost use Rattle.spectral_tables.specs.Faults.{Gives};
ghost use Rattle.spectral_tables.specs.WeightTable.{IsTriple, IsWeightTable, at_column, magnitude_sum};
ghost use Rattle.spectral_tables.specs.Run.{no_rows, reaches_end};
ghost use Rattle.spectral_tables.specs.Grid.{count_of};
ghost use Rattle.spectral_tables.specs.WeightFile.{IsWhite, ensure_balance, closed_of, weights_from, weights_of, weight_table_of};
ghost use Rattle.spectral_tables.specs.declared.records.TheConstants.{TABLE_LIMIT};

use crate::fault::{Cell, TableError, TableFault, TableRule};
use crate::fields::begins_with;
use crate::grid::WaveGrid;
use crate::records::{fields_of, records_of};
use crate::run::Run;
use crate::weight_rows::{white_of, with_row};
use crate::weights::Weights;
use csv::ByteRecord;
use std::alloc::Global;

/// The sum of the magnitudes of the weights in a column.
#[tactic(auto, unfolding(crate::specs::WeightTable::magnitude_sum))]
fn magnitude_sum(triples: &[[i64; 3]], column: usize) -> u64
    requires column { column < 3 }
    requires few { length triples.now ≤ 60 }
    requires magnitudes { All IsTriple triples.now }
    ensures { result ≡ magnitude_sum column triples.now }
{
    let mut sum = 0;
    for triple in triples {
        sum += triple[column].unsigned_abs();
    }
    sum
}

/// Fails unless twice the white value of a column is at least the sum of the magnitudes of its
/// weights.
fn ensure_balance(run: &Run, white: &[i64; 3], column: usize) -> Result<(), TableFault>
    requires column { column < 3 }
    requires white { IsWhite white.now }
    ensures { result ≡ ensure_balance run.now white.now column }
{
    let cell = Cell {
        row: run.following_row(),
        column: column as u32 + 2,
    };
    let magnitudes = magnitude_sum(run.triples(), column);
    cell.ensure(
        magnitudes <= 2 * white[column].unsigned_abs(),
        TableRule::Unbalanced,
    )
}

/// The weights of a file whose white record has been read, where `after` are the records after it.
#[tactic(auto, unfolding(crate::specs::WeightFile::closed_of))]
fn closed(run: &Run, white: [i64; 3], after: &[ByteRecord]) -> Result<Weights, TableFault>
    requires end { IsTrue (reaches_end run.now) }
    requires white { IsWhite white }
    ensures is { result ≡ closed_of run.now white (map stored_fields after.now) }
    ensures waves { IfOk result (λ w. length w.weights ≡ count_of run.now.grid) }
{
    ensure_balance(run, &white, 0)?;
    ensure_balance(run, &white, 1)?;
    ensure_balance(run, &white, 2)?;
    let end = Cell {
        row: run.following_row() + 1,
        column: 1,
    };
    end.ensure(after.is_empty(), TableRule::BadWavelength)?;
    Ok(Weights {
        weights: run.folded(),
        white,
    })
}

/// The weights of the records after the header.
#[tactic(auto, unfolding(crate::specs::WeightFile::weights_from))]
fn weights_from(alloc: Global, grid: WaveGrid, lines: &[ByteRecord]) -> Result<Weights, TableError>
    requires { All (λ r. length (stored_fields r) < 2 ^ 32 - 2) lines.now }
    ensures is { Gives (λ w. w) result
        (weights_from (no_rows grid) (map stored_fields lines.now)) }
    ensures waves { IfOk result (λ w. length w.weights ≡ count_of grid) }
{
    let mut run = Run::new(alloc, grid);
    for (i, line) in lines.iter().enumerate() {
        let fields = fields_of(alloc, line)?;
        let end = Cell {
            row: run.following_row(),
            column: fields.len() as u32,
        };
        end.ensure(fields.len() == 4, TableRule::WrongCount)?;
        if begins_with(&fields, b"white") {
            let white = white_of(&run, &fields)?;
            return Ok(closed(&run, white, &lines[i + 1..])?);
        }
        run = with_row(run, &fields)?;
    }
    let missing = Cell {
        row: run.following_row(),
        column: 1,
    };
    Err(TableError::Fault(missing.fault(TableRule::NoWhite)))
}

#[tactic(auto, unfolding(crate::specs::WeightFile::weights_of))]
fn weights_of(alloc: Global, grid: WaveGrid, records: &[ByteRecord]) -> Result<Weights, TableError>
    requires { All (λ r. length (stored_fields r) < 2 ^ 32 - 2) records.now }
    ensures is { Gives (λ w. w) result (weights_of grid (map stored_fields records.now)) }
    ensures waves { IfOk result (λ w. length w.weights ≡ count_of grid) }
{
    let start = Cell { row: 1, column: 1 };
    let [header, lines @ ..] = records else {
        return Err(TableError::Fault(start.fault(TableRule::NoHeader)));
    };
    let fields = fields_of(alloc, header)?;
    let is_header = begins_with(&fields, b"nm") && fields.len() == 4;
    start.ensure(is_header, TableRule::NoHeader)?;
    weights_from(alloc, grid, lines)
}

/// The weights of a file of at most [`TABLE_LIMIT`](crate::TABLE_LIMIT) bytes.
///
/// The first record has four fields, `nm` and any three. Then comes a record for each wavelength,
/// with a weight of up to 1,000 in magnitude for X, Y and Z: the first wavelength is a multiple of
/// the grid's step from 300 nm to the grid's first one, each further one is a step more, and the
/// last one is from the grid's last one to 830 nm.
/// The last record is `white` and three values above 0 and up to 1,000, each at least half the sum
/// of the magnitudes of its column. A byte order mark and spaces and tabs around a field are
/// ignored.
///
/// The error is the first fault with its row and column, or that memory has run out.
pub fn read_weights(alloc: Global, bytes: &[u8], grid: WaveGrid) -> Result<Weights, TableError>
    requires { length bytes.now ≤ TABLE_LIMIT }
    ensures exact { Gives (λ w. w) result (weight_table_of grid bytes.now) }
    ensures held { IfOk result IsWeightTable }
    ensures waves { IfOk result (λ w. length w.weights ≡ count_of grid) }
{
    let records = records_of(alloc, bytes)?;
    weights_of(alloc, grid, &records)
}
