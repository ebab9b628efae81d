//! A job over the curves of a file.

ghost use Rattle.std.proofs.Props.{props};
ghost use Rattle.price_grid.specs.Limits.{limits_view};
ghost use Rattle.job_file.specs.JobView.{job_view};
ghost use Rattle.job_file.specs.ResolvedKept.{IsResolved};
ghost use Rattle.job_file.specs.ResolvedProps.{recipe_prop, steps_prop};

use crate::job::Job;
use crate::lists::{DyeList, WeightsList};
use price_grid::{Grid, Limits};
use spectral_tables::Curve;

/// A job whose curves and weights were found.
#[derive(Drop)]
pub struct Resolved {
    /// The job as its file gives it.
    pub job: Job,
    /// The curve of the undyed cloth.
    pub substrate: Curve,
    /// The curve of the cloth that is to be matched.
    pub standard: Curve,
    /// The dyes, calibrated on the undyed cloth, in the order of the job.
    pub dyes: DyeList,
    /// What the dyes cost, and how much of each may be weighed out.
    pub grid: Grid,
    /// The limits of a recipe, for a bath without dye.
    pub limits: Limits,
    /// The weights of each light.
    pub weights: WeightsList,
    /// The curve of the batch that is to be corrected, if there is one.
    pub batch: Option<Curve>,

    pub ghost kept: { IsResolved (record {
      job = job_view job;
      substrate = substrate;
      standard = standard;
      dyes = dyes;
      grid = grid;
      limits = limits_view limits;
      weights = weights;
      batch = batch;
    }) } by { Prim.hlevel (props, steps_prop, recipe_prop) },
}
