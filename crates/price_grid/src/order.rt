//! The order of recipes.

ghost use Rattle.std.specs.Prelude.{◌≡◌};
ghost use Rattle.price_grid.specs.Order.{key_cmp, key_view};

use crate::grid::Steps;
use std::cmp::Ordering;

/// The steps of a recipe with their cost. Keys are ordered by cost and then by steps, from the
/// first dye on.
#[derive(Debug, Drop, PartialEq, Eq, PartialOrd, Ord)]
pub struct Key {
    /// The cost, in the cost units of the prices.
    pub cost: u64,
    /// The steps of each dye.
    pub steps: Steps,
}

/// The order of two keys.
pub fn compare(a: &Key, b: &Key) -> Ordering
    ensures { result ≡ key_cmp (key_view a.now) (key_view b.now) }
{
    a.cmp(b)
}
