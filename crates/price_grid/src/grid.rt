//! The grid of recipes.

ghost use Rattle.std.specs.Prelude.{◌≡◌};

use crate::dye_cost::DyeCost;
use arrayvec::ArrayVec;
use std::marker::Model;

/// A recipe: the steps of each dye, in the order of the grid.
pub type Steps = ArrayVec<u16, 12>;

/// The dyes of a job, one to twelve. The recipes of the grid are all lists with a number of steps
/// for each dye, from 0 to the most steps of that dye.
#[derive(Debug, Drop)]
pub struct Grid {
    /// The dyes in the order of the job.
    pub dyes: ArrayVec<DyeCost, 12>,
}

impl Model for Grid {
    ghost use Rattle.std.specs.Prelude.{List};
    ghost use Rattle.price_grid.specs.declared.dye_cost.DyeCost.{DyeCost};
    ghost use Rattle.price_grid.specs.Grid.{IsGrid};
    ghost use Rattle.std.specs.Prelude.{◌≡◌};

    ghost Value = { List DyeCost };

    ghost view = { λ g. g.dyes.items };

    ghost invariant = { λ g. IsGrid g.dyes.items };
}

/// A copy of a recipe. It allocates no memory.
pub fn copy_of(steps: &Steps) -> Steps
    ensures { result.items ≡ steps.now.items }
{
    let mut copy = Steps::new();
    for n in steps.as_slice() {
        copy.push(*n);
    }
    copy
}
