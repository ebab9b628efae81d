//! One dye of a grid.

/// What a dye costs, and how much of it a recipe may have.
#[derive(Clone, Copy, Debug, Default, PartialEq, Eq)]
pub struct DyeCost {
    /// The weight of one step, 1 to 20,000 units of 0.001 percent of the weight of the cloth.
    pub step: u32,
    /// The fewest steps of this dye in a recipe that has any of it, 1 to 4,000.
    pub least: u16,
    /// The most steps of this dye, 1 to 4,000, which together weigh at most 20,000 units.
    pub most: u16,
    /// The price of one unit in cost units, up to 1,000,000.
    pub price: u64,
    /// The fee that a recipe with any of this dye costs once, up to 10^12 cost units.
    pub fee: u64,
}
