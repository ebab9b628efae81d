//! The cost and the key of a recipe.

ghost use Rattle.std.specs.Prelude.{◌≡◌, ◌≤◌, ◌+◌, ◌*◌, ◌^◌};
ghost use Rattle.price_grid.specs.Cost.{cost_of, dye_cost};
ghost use Rattle.price_grid.specs.Grid.{IsDyeCost, IsGrid, IsRecipe};
ghost use Rattle.price_grid.specs.Order.{key_of, key_view};

use crate::dye_cost::DyeCost;
use crate::grid::{Grid, Steps, copy_of};
use crate::order::Key;

/// What this many steps of one dye cost.
fn cost_of_dye(dye: &DyeCost, steps: u16) -> u64
    requires range { IsDyeCost dye.now }
    requires steps { steps ≤ dye.now.most }
    ensures is { result ≡ dye_cost dye.now steps }
    ensures small { result ≤ 2 * 10 ^ 10 + 10 ^ 12 }
{
    let units = u64::from(steps) * u64::from(dye.step);
    let fee = if steps == 0 { 0 } else { dye.fee };
    units * dye.price + fee
}

/// The cost of the steps of each dye together.
fn cost_of_steps(dyes: &[DyeCost], steps: &[u16]) -> u64
    requires grid { IsGrid dyes.now }
    requires recipe { IsRecipe dyes.now steps.now }
    ensures is { result ≡ cost_of dyes.now steps.now }
    ensures small { result ≤ 10 ^ 15 }
{
    let mut total = 0;
    for (i, dye) in dyes.iter().enumerate() {
        total += cost_of_dye(dye, steps[i]);
    }
    total
}

/// The cost of a recipe, in the cost units of the prices: the price of the units of each dye, and
/// the fee of each dye that has any steps.
pub fn cost(grid: &Grid, steps: &Steps) -> u64
    requires { IsRecipe grid.now steps.now.items }
    ensures is { result ≡ cost_of grid.now steps.now.items }
    ensures small { result ≤ 10 ^ 15 }
{
    cost_of_steps(grid.dyes.as_slice(), steps.as_slice())
}

/// The key of a recipe.
pub fn key(grid: &Grid, steps: &Steps) -> Key
    requires { IsRecipe grid.now steps.now.items }
    ensures { key_view result ≡ key_of grid.now steps.now.items }
{
    Key {
        cost: cost(grid, steps),
        steps: copy_of(steps),
    }
}
