//! A job as its file gives it.

ghost use Rattle.std.specs.Prelude.{◌≡◌, All, IfSome};
ghost use Rattle.std.proofs.Props.{props};
ghost use Rattle.job_file.specs.Batch.{IsBatch};
ghost use Rattle.job_file.specs.Dye.{has_dye};
ghost use Rattle.job_file.specs.Kept.{AreDyes, AreLights};
ghost use Rattle.job_keys.specs.Pair.{IsPair};
ghost use Rattle.job_file.specs.Top.{IsHead};

use crate::batch::JobBatch;
use crate::dye::JobDye;
use arrayvec::ArrayVec;
use job_keys::{JobLight, JobPair, Text};

/// A job: the curves, the lights, the dyes and the limits for which a recipe is to be found.
#[derive(Debug, Drop)]
pub struct Job {
    /// The version of the format, 1.
    pub version: u32,
    /// The name of the file of curves.
    pub curves: Text,
    /// The name of the curve of the undyed cloth.
    pub substrate: Text,
    /// The name of the curve that is to be matched.
    pub standard: Text,
    /// The kilograms of cloth, 1 to 100,000.
    pub load: u32,
    /// The most dyes of a recipe, 1 to 12. In a correction what is in the bath counts, too.
    pub max_dyes: u8,
    /// The most units of all dyes of a recipe together, 1 to 240,000. In a correction what is in
    /// the bath counts, too.
    pub max_total: u32,
    /// The highest cost of a recipe, up to 10^15 cost units, if there is a limit.
    pub max_cost: Option<u64>,
    /// How many boxes of recipes the search may judge, 1 to 1,000,000.
    pub budget: u32,
    /// The lights, one or two.
    pub light: ArrayVec<JobLight, 4>,
    /// The dyes, one to twelve, no two with the same name.
    pub dye: ArrayVec<JobDye, 12>,
    /// The pairs of dyes that may not be used together, up to 66.
    pub pair: ArrayVec<JobPair, 66>,
    /// The batch that is to be corrected, if there is one.
    pub batch: Option<JobBatch>,

    pub ghost one: { version ≡ 1 } by { Prim.hlevel props },
    pub ghost head: { IsHead (record {
      curves = curves;
      substrate = substrate;
      standard = standard;
      load = load;
      max_dyes = max_dyes;
      max_total = max_total;
      max_cost = max_cost;
      budget = budget;
    }) } by { Prim.hlevel props },
    pub ghost lights: { AreLights light.items } by { Prim.hlevel props },
    pub ghost dyes: { AreDyes dye.items } by { Prim.hlevel props },
    pub ghost pairs: { All (IsPair (has_dye dye.items)) pair.items } by { Prim.hlevel props },
    pub ghost bath: { IfSome batch (IsBatch dye.items) } by { Prim.hlevel props },
}
