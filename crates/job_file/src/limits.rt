//! The grid and the limits of a job.

ghost use Rattle.std.specs.Prelude.{◌≡◌, ◌≤◌, All, length, map};
ghost use Rattle.price_grid.specs.Grid.{IsDyeCost};
ghost use Rattle.price_grid.specs.Limits.{limits_view};
ghost use Rattle.job_file.specs.Dye.{IsDye};
ghost use Rattle.job_file.specs.JobView.{job_view};
ghost use Rattle.job_file.specs.Kept.{AreDyes};
ghost use Rattle.job_file.specs.Resolve.{cost_of_dye, limits_of, most_steps, number_of, numbers_of};

use crate::dye::JobDye;
use crate::job::Job;
use arrayvec::ArrayVec;
use job_keys::JobPair;
use price_grid::{DyeCost, Grid, Limits, Steps};

/// What a dye costs, and how much of it may be weighed out.
fn cost_of_dye(dye: &JobDye) -> DyeCost
    requires { IsDye dye.now }
    ensures is { result ≡ cost_of_dye dye.now }
    ensures range { IsDyeCost result }
{
    DyeCost {
        step: dye.step,
        least: dye.least,
        most: dye.most,
        price: dye.price,
        fee: dye.fee,
    }
}

/// The grid of the dyes.
pub(crate) fn grid_of(dyes: &[JobDye]) -> Grid
    requires { AreDyes dyes.now }
    ensures { result ≡ map cost_of_dye dyes.now }
{
    let mut costs = ArrayVec::new();
    for dye in dyes {
        costs.push(cost_of_dye(dye));
    }
    Grid { dyes: costs }
}

/// The number of the first dye with a name, from 1, or one more than the number of dyes where no
/// dye has it.
fn number_of(dyes: &[JobDye], name: &str) -> u8
    requires { length dyes.now ≤ 12 }
    ensures { result ≡ number_of dyes.now name.now }
{
    for (i, dye) in dyes.iter().enumerate() {
        if dye.name.as_str() == name {
            return i as u8 + 1;
        }
    }
    dyes.len() as u8 + 1
}

/// The pairs by the numbers of their dyes.
fn pairs_of(dyes: &[JobDye], pairs: &[JobPair]) -> ArrayVec<(u8, u8), 66>
    requires dyes { length dyes.now ≤ 12 }
    requires pairs { length pairs.now ≤ 66 }
    ensures { result.items ≡ map (numbers_of dyes.now) pairs.now }
{
    let mut numbers = ArrayVec::new();
    for pair in pairs {
        let first = number_of(dyes, pair.a.as_str());
        let second = number_of(dyes, pair.b.as_str());
        numbers.push((first, second));
    }
    numbers
}

/// No steps of any dye.
fn no_steps(dyes: &[JobDye]) -> Steps
    requires { length dyes.now ≤ 12 }
    ensures { result.items ≡ map (λ d. 0) dyes.now }
{
    let mut steps = Steps::new();
    for _ in dyes {
        steps.push(0);
    }
    steps
}

/// The most steps of each dye.
pub(crate) fn most_steps(dyes: &[JobDye]) -> Steps
    requires { length dyes.now ≤ 12 }
    ensures { result.items ≡ most_steps dyes.now }
{
    let mut steps = Steps::new();
    for dye in dyes {
        steps.push(dye.most);
    }
    steps
}

/// The limits of a job, for a bath without dye.
pub(crate) fn limits_of(job: &Job) -> Limits
    ensures { limits_view result ≡ limits_of (job_view job.now) }
{
    let dyes = job.dye.as_slice();
    Limits {
        max_dyes: job.max_dyes,
        max_total: job.max_total,
        max_cost: job.max_cost,
        pairs: pairs_of(dyes, job.pair.as_slice()),
        bath: no_steps(dyes),
    }
}
