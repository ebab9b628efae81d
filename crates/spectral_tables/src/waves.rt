//! The wavelengths of a grid.

/// Equally spaced wavelengths, in nanometres.
#[derive(Clone, Copy, Debug, PartialEq, Eq)]
pub struct Waves {
    /// The first wavelength.
    pub first: u16,
    /// From one wavelength to the next.
    pub step: u16,
    /// How many wavelengths there are.
    pub count: usize,
}
