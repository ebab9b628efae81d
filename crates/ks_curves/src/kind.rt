//! The kinds of calibration.

/// How a dye is calibrated: what lies between the amounts that were measured.
#[derive(Clone, Copy, Debug, PartialEq, Eq)]
pub enum Calibration {
    /// The straight line through the origin that fits the dyeings by least squares.
    Line,
    /// The broken line that joins the origin and the dyeings.
    Broken,
}
