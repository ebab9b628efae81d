ghost use Rattle.std.specs.Prelude.{◌≡◌, ◌≤◌, IfOk, ℕ, length, List, option_map, Result};
ghost use Rattle.std.specs.Option.{ForSome};
ghost use Rattle.spectral_tables.specs.CurveFile.{curve_table_of};
ghost use Rattle.spectral_tables.specs.CurveBook.{wave_count};
ghost use Rattle.spectral_tables.specs.Faults.{Gives as GivesTable};
ghost use Rattle.spectral_tables.specs.Grid.{count_of};
ghost use Rattle.spectral_tables.specs.WeightFile.{weight_table_of};
ghost use Rattle.spectral_tables.specs.declared.fault.TableFault.{TableFault};
ghost use Rattle.spectral_tables.specs.declared.grid.WaveGrid.TheVariants.{Ten};
ghost use Rattle.dye_run.specs.Inputs.{curve_from, table_from};
ghost use Rattle.run_core.specs.Judging.{Gives};
ghost use Rattle.spectral_tables.specs.declared.records.TheConstants.{TABLE_LIMIT};

use run_core::Stop;
use shade_report::Refusal;
use spectral_tables::{Curve, CurveBook, TableError, WaveGrid, Weights, read_curves, read_weights};
use std::alloc::Global;

/// The curves of one file, and the weights of another, for the same number of wavelengths.
#[derive(Drop)]
pub(crate) struct Tables {
    pub book: CurveBook,
    pub weights: Weights,
    pub ghost equal: { length weights.weights ≡ wave_count book },
}

/// A table that is read from the bytes of one file, for the wavelengths from 400 to 700 nm in steps
/// of 10 nm.
pub(crate) trait Table: Drop {
    // the table that the bytes spell, or their first fault
    ghost table_of: { List ℕ → Result Self TableFault };

    // for how many wavelengths it is
    ghost places: { Self → ℕ };

    /// Reads the table.
    fn read(alloc: Global, bytes: &[u8]) -> Result<Self, TableError>
        requires { length bytes.now ≤ TABLE_LIMIT }
        ensures is { GivesTable (λ t. t) result (table_of bytes.now) }
        ensures waves { IfOk result (λ t. places t ≡ count_of Ten) };
}

impl Table for CurveBook {
    ghost table_of = { curve_table_of Ten };

    ghost places = { wave_count };

    fn read(alloc: Global, bytes: &[u8]) -> Result<Self, TableError> {
        read_curves(alloc, bytes, WaveGrid::Ten)
    }
}

impl Table for Weights {
    ghost table_of = { weight_table_of Ten };

    ghost places = { λ w. length w.weights };

    fn read(alloc: Global, bytes: &[u8]) -> Result<Self, TableError> {
        read_weights(alloc, bytes, WaveGrid::Ten)
    }
}

/// The table of a file, from the bytes that were read. These are `None` where the file has more
/// bytes than its limit, which is refused.
#[tactic(auto, unfolding(crate::specs::Inputs::table_from))]
pub(crate) fn table_from<'a, T: Table>(
    alloc: Global,
    name: &'a str,
    bytes_read: Option<&[u8]>,
) -> Result<T, Stop<'a>>
    requires { ForSome bytes_read (λ bytes. length bytes.now ≤ TABLE_LIMIT) }
    ensures is { Gives (λ t. t) result
        (table_from T.table_of name.now (option_map (λ b. b.now) bytes_read.entry)) }
    ensures waves { IfOk result (λ t. T.places t ≡ count_of Ten) }
{
    let Some(bytes) = bytes_read else {
        return Err(Stop::Refused(Refusal::TooLong(name)));
    };
    match T::read(alloc, bytes) {
        Ok(table) => Ok(table),
        Err(TableError::Fault(fault)) => Err(Stop::Refused(Refusal::Table(name, fault))),
        Err(TableError::Memory) => Err(Stop::Memory),
    }
}

/// The curve of a column of the file under `name`.
#[tactic(auto, unfolding(crate::specs::Inputs::curve_from))]
pub(crate) fn curve_from<'a, 'b>(
    name: &'a str,
    column: &'a str,
    book: &'b CurveBook,
) -> Result<&'b Curve, Stop<'a>>
    ensures is { Gives (λ c. c.now) result (curve_from name.now column.now book.now) }
    ensures waves { IfOk result (λ c. length c.now ≡ wave_count book.now) }
{
    match book.find(column) {
        Some(curve) => Ok(curve),
        None => Err(Stop::Refused(Refusal::NoColumn(name, column))),
    }
}
