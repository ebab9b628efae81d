//! The law of the differences of recipes. A call does nothing at run time; its contract is the law.

ghost use Rattle.price_grid.specs.Grid.{IsRecipe};
ghost use Rattle.recipe_judge.specs.Laws.{DifferencesEnclose, DifferencesNarrow, EnclosesFinerOf};

use crate::land::RecipeLand;
use price_grid::Steps;

/// The law of [`RecipeLand::differences`]: the differences of a recipe enclose those at every finer
/// scale.
pub fn finer(land: &RecipeLand, steps: &Steps)
    requires { IsRecipe land.now.grid steps.now.items }
    ensures { EnclosesFinerOf land.now steps.now.items steps.now.items }
{
    let _ = land.job(); // called only for its contract: the invariant of the recipes of a job
}

/// The same for the recipes from low to high steps of each dye, of any job.
pub fn boxes()
    ensures { DifferencesEnclose }
{}

/// The law of boxes: at the base scale and at each finer one, the differences over a box enclose
/// those over every box inside it, and so those of each of its recipes.
pub fn narrower()
    ensures { DifferencesNarrow }
{}
