//! The limits by name and by number.

/// The number of a limit, from 1 to 5: the range of each dye, the number of dyes, the total of
/// units, the forbidden pairs, and the ceiling of the cost.
#[derive(Clone, Copy, Debug, PartialEq, Eq)]
pub struct LimitNo(pub u8);

/// What a limit bounds.
#[derive(Clone, Copy, Debug, PartialEq, Eq)]
pub enum Limit {
    /// The steps of each dye.
    Range,
    /// How many dyes have any steps.
    Count,
    /// The units of all dyes together.
    Total,
    /// The pairs of dyes that a recipe may not have together.
    Pair,
    /// The cost.
    Ceiling,
}
