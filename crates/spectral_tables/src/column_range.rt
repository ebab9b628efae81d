//! The range of the numbers in a column.

/// The least and the greatest number that a column may hold, in units of 0.0001.
#[derive(Clone, Copy, Debug, PartialEq, Eq)]
pub struct ColumnRange {
    /// The least number.
    pub least: u32,
    /// The greatest number.
    pub most: u32,
}
