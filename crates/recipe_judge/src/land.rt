//! All recipes of a job, and what is computed once to judge them.

ghost use Rattle.std.specs.Prelude.{◌≡◌, IfOk};
ghost use Rattle.job_file.specs.JobView.{job_view};
ghost use Rattle.job_file.specs.ResolvedView.{resolved_view};
ghost use Rattle.price_grid.specs.Grid.{IsGrid, IsRecipe};
ghost use Rattle.price_grid.specs.Limits.{FitGrid, limits_view};
ghost use Rattle.metamerism.specs.Verdicts.{verdict_at};
ghost use Rattle.recipe_judge.specs.Evaluation.{differences_at, tolerances};
ghost use Rattle.recipe_judge.specs.Land.{IsLand, over_batch};
ghost use Rattle.fix_bounds.specs.Scales.{base_unit};

use crate::lights::lights_of;
use batch_correct::{base_of, shift_limits};
use cmc_bounds::Cmc;
use fix_bounds::Base;
use job_file::{Job, Resolved};
use metamerism::{Deltas, Lights, Verdict, deltas, verdict};
use mix_model::{BaseCurve, mix};
use price_grid::{Grid, Limits, Steps};
use std::alloc::{AllocError, Global};
use std::marker::Model;

/// The recipes of a job, with what is computed once to judge any of them: the limits, with what is
/// in the bath counted, the K/S of the cloth that the dyes are added to, and the lights with the
/// colour of the standard under each.
#[derive(Drop)]
pub struct RecipeLand {
    pub(crate) resolved: Resolved,
    pub(crate) limits: Limits,
    pub(crate) base: BaseCurve<Base>,
    pub(crate) lights: Lights<Base, Cmc>,
}

impl Model for RecipeLand {
    ghost use Rattle.job_file.specs.Resolve.{ResolvedJob};
    ghost use Rattle.job_file.specs.ResolvedView.{resolved_view};
    ghost use Rattle.metamerism.specs.Lights.{deltas_under, places_of, tolerances_of};
    ghost use Rattle.price_grid.specs.Limits.{limits_view};
    ghost use Rattle.recipe_judge.specs.Land.{KeepsLand};

    ghost Value = { ResolvedJob };

    ghost view = { λ l. resolved_view l.resolved };

    ghost invariant = { λ l.
        KeepsLand (resolved_view l.resolved) (limits_view l.limits) l.base
        (tolerances_of l.lights) (deltas_under l.lights) (places_of l.lights) };
}

/// The limits of a job, with the steps of the batch counted as in the bath, if there is a batch.
fn limits_of(resolved: &Resolved) -> Limits
    ensures { limits_view result
        ≡ over_batch (limits_view resolved.now.limits) resolved.now.job.batch }
{
    match &resolved.job.batch {
        Some(batch) => shift_limits(&resolved.limits, &batch.steps),
        None => shift_limits(&resolved.limits, &resolved.limits.bath),
    }
}

/// The grid of a job.
fn grid_of(resolved: &Resolved) -> &Grid
    ensures is { result.now ≡ resolved.now.grid }
    ensures held { IsGrid result.now }
{
    let grid = &resolved.grid;
    let _dyes = &grid.dyes; // read only for the invariant of a grid
    grid
}

impl RecipeLand {
    /// The recipes of a job whose curves and weights were found. It takes no memory, so it always
    /// succeeds.
    pub fn of_job(_alloc: Global, resolved: Resolved) -> Result<RecipeLand, AllocError>
        ensures is { IfOk result (λ l. l ≡ resolved_view resolved) }
        ensures held { IfOk result IsLand }
    {
        let limits = limits_of(&resolved);
        let base = base_of(&resolved);
        let lights = lights_of(&resolved);
        // called only for their contracts: the grid, the standard and the base are in range
        let _ = grid_of(&resolved);
        let _ = resolved.standard.waves();
        let _ = base.waves();
        Ok(RecipeLand {
            resolved,
            limits,
            base,
            lights,
        })
    }

    /// The job.
    pub fn job(&self) -> &Job
        ensures is { job_view result.now ≡ self.now.job }
        ensures held { IsLand self.now }
    {
        &self.resolved.job
    }

    /// The grid of recipes: what the dyes cost, and how much of each may be weighed out.
    pub fn grid(&self) -> &Grid
        ensures { result.now ≡ self.now.grid }
    {
        &self.resolved.grid
    }

    /// The limits that a recipe must keep, with what is in the bath counted.
    pub fn limits(&self) -> &Limits
        ensures is { limits_view result.now ≡ over_batch self.now.limits self.now.job.batch }
        ensures fit { FitGrid self.now.grid (limits_view result.now) }
    {
        &self.limits
    }

    /// The differences of a recipe from the standard, one for each light.
    pub fn differences(&self, steps: &Steps) -> Deltas<Base>
        requires { IsRecipe self.now.grid steps.now.items }
        ensures { result.each.items
            ≡ differences_at base_unit self.now steps.now.items steps.now.items }
    {
        let dyes = self.resolved.dyes.as_slice();
        let bath = self.resolved.limits.bath.as_slice();
        let sample = mix(&self.base, dyes, bath, steps.as_slice(), steps.as_slice());
        deltas(&self.lights, &sample)
    }

    /// The verdict on a recipe against the tolerances of the lights.
    pub fn verdict_of(&self, steps: &Steps) -> Verdict
        requires { IsRecipe self.now.grid steps.now.items }
        ensures { result ≡ verdict_at base_unit (tolerances self.now.job.light)
            (differences_at base_unit self.now steps.now.items steps.now.items) }
    {
        let deltas = self.differences(steps);
        verdict(&self.lights, &deltas)
    }
}
