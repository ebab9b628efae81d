/// Why a text is not accepted as a decimal number.
#[derive(Clone, Copy, Debug, PartialEq, Eq)]
pub enum DecFault {
    /// Nothing follows the sign, or only a point.
    Empty,
    /// A byte after the sign is neither a digit nor the first point. The number is the offset of
    /// the first such byte in the whole text.
    NotDigit(usize),
    /// A digit other than 0 follows the last decimal place that is allowed.
    TooManyPlaces,
    /// The magnitude, counted in units of the last decimal place, is above 10^15.
    TooLarge,
}
