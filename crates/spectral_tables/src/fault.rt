//! What is wrong with a table, and where.

ghost use Rattle.std.specs.Prelude.{◌≡◌, Bool};
ghost use Rattle.spectral_tables.specs.declared.fault.TableError.TheVariants as errors;

use std::alloc::{AllocError, AllocFailed};
use thiserror::Error;

/// The rule that a table breaks.
#[derive(Clone, Copy, Debug, PartialEq, Eq)]
pub enum TableRule {
    /// There is no record, or the first one is not a header.
    NoHeader,
    /// The record of the wavelength that must follow is missing, or there is a record that must not
    /// follow.
    BadWavelength,
    /// A record has another number of fields than the header.
    WrongCount,
    /// A field is not a decimal number, has a digit other than 0 after the last decimal place that
    /// it may have, or is above 10^15 in units of that place.
    BadNumber,
    /// A number is below or above its range.
    OutOfRange,
    /// Two curves have the same name.
    DoubleName,
    /// The records end before a white record.
    NoWhite,
    /// A white value is not above 0.
    WhiteNotPositive,
    /// The magnitudes of a column's weights add up to more than twice its white value.
    Unbalanced,
}

/// The first fault of a table.
#[derive(Clone, Copy, Debug, PartialEq, Eq)]
pub struct TableFault {
    /// The number of the record, from 1. A missing record has the number that it would have.
    pub row: u32,
    /// The number of the field in it, from 1.
    pub column: u32,
    /// The rule that is broken there.
    pub rule: TableRule,
}

/// Why a table was not read.
#[derive(Debug, Drop, Error)]
pub enum TableError {
    /// The table breaks a rule.
    #[error("row {} column {}: {:?}", .0.row, .0.column, .0.rule)]
    Fault(TableFault),
    /// Memory ran out.
    #[error("out of memory")]
    Memory,
}

impl From<TableFault> for TableError {
    ghost from_gives = { λ fault e. e ≡ errors.Fault fault };

    fn from(fault: TableFault) -> TableError {
        TableError::Fault(fault)
    }
}

impl From<AllocError> for TableError {
    ghost from_gives = { λ _ e. e ≡ errors.Memory };

    fn from(_e: AllocError) -> TableError {
        TableError::Memory
    }
}

impl<T: Drop> From<AllocFailed<T>> for TableError {
    ghost from_gives = { λ _ e. e ≡ errors.Memory };

    fn from(_e: AllocFailed<T>) -> TableError {
        TableError::Memory
    }
}

/// A field of a table, by its record and its number in the record, each counted from 1.
#[derive(Clone, Copy)]
pub(crate) struct Cell {
    pub(crate) row: u32,
    pub(crate) column: u32,
}

impl Cell {
    ghost use Rattle.spectral_tables.specs.Faults.{fault, ensure};

    pub(crate) fn fault(self, rule: TableRule) -> TableFault
        ensures { result ≡ fault self.row self.column rule }
    {
        TableFault {
            row: self.row,
            column: self.column,
            rule,
        }
    }

    /// Fails with this rule unless the test holds.
    pub(crate) fn ensure(self, holds: bool, rule: TableRule) -> Result<(), TableFault>
        ensures { result ≡ ensure self.row self.column rule holds }
    {
        if holds { Ok(()) } else { Err(self.fault(rule)) }
    }
}
