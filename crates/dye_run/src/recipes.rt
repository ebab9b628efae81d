//! What a report shows of a recipe.

ghost use Rattle.std.specs.Prelude.{◌≡◌, ◌≤◌, All, length};
ghost use Rattle.job_keys.specs.Light.{IsLight};
ghost use Rattle.price_grid.specs.Grid.{IsRecipe};
ghost use Rattle.recipe_judge.specs.Evaluation.{tolerances};
ghost use Rattle.shade_report.specs.Recipes.{shown_view};
ghost use Rattle.run_core.specs.Endings.{IsSearchable};
ghost use Rattle.dye_run.specs.Show.{recipe_values, verdicts_from};

use arrayvec::ArrayVec;
use box_core::Landscape;
use fix_bounds::{Base, Iv};
use job_file::JobLight;
use metamerism::{Verdict, judge_light};
use price_grid::{Steps, cost};
use recipe_judge::RecipeLand;
use shade_report::Shown;

/// The verdict on each difference by itself.
fn verdicts_of(lights: &[JobLight], deltas: &[Iv<Base>]) -> ArrayVec<Verdict, 4>
    requires few { length lights.now ≤ 4 }
    requires range { All IsLight lights.now }
    requires count { length deltas.now ≡ length lights.now }
    ensures is { result.items ≡ verdicts_from 1 (tolerances lights.now) deltas.now }
    ensures count { length result.items ≡ length deltas.now }
{
    let mut verdicts = ArrayVec::new();
    for (i, light) in lights.iter().enumerate() {
        verdicts.push(judge_light(light.tolerance, i as u8 + 1, deltas[i]));
    }
    verdicts
}

/// The values that a report shows of a recipe.
pub(crate) fn shown_of(land: &RecipeLand, steps: Steps) -> Shown
    requires { IsRecipe land.now.grid steps.items }
    ensures { shown_view result ≡ recipe_values land.now steps.items }
{
    let deltas = land.differences(&steps);
    let each = verdicts_of(land.job().light.as_slice(), deltas.each.as_slice());
    let cost = cost(land.grid(), &steps);
    let whole = land.verdict_of(&steps);
    Shown {
        steps,
        cost,
        deltas,
        each,
        whole,
    }
}

/// The budget of boxes of a job, 1 to 1,000,000. By its contract a search with this budget can
/// begin among the recipes of the job; it may end before there is an answer.
pub(crate) fn budget_of(land: &RecipeLand) -> u32
    ensures is { result ≡ land.now.job.head.budget }
    ensures some { 1 ≤ result }
    ensures searchable { IsSearchable land.now }
{
    let _ = land.top(); // called only for its contract: the recipes are a lawful landscape
    land.job().budget
}
