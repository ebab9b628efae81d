//! The columns of a file.

/// The columns of a file, as they stand there: a number under each name in each row.
#[derive(Debug, Drop)]
pub struct Columns {
    /// The names, no two alike.
    pub names: Vec<Vec<u8>>,
    /// For each wavelength of the grid, by rising wavelength, the number under each name, in units
    /// of 0.0001.
    pub rows: Vec<Vec<u32>>,
}
