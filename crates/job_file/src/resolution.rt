//! Finding the curves of a job.

ghost use Rattle.std.specs.Prelude.{◌≡◌, IfOk, IfSome, All, length, vec_len};
ghost use Rattle.spectral_tables.specs.CurveBook.{wave_count};
ghost use Rattle.job_keys.specs.Arrays.{if_there};
ghost use Rattle.job_file.specs.Batch.{batch_position};
ghost use Rattle.job_keys.specs.Faults.{Gives};
ghost use Rattle.job_file.specs.JobView.{job_view};
ghost use Rattle.job_file.specs.Resolve.{base_curve, curve_of, resolved_job};
ghost use Rattle.job_file.specs.ResolvedView.{resolved_view};

use crate::batch::JobBatch;
use crate::calibrated::{calibrated, curve_of};
use crate::job::Job;
use crate::limits::{grid_of, limits_of, most_steps};
use crate::lists::{DyeList, WeightsList};
use crate::read::JOB_POSITION;
use crate::resolved::Resolved;
use crate::strength::most_is_too_strong;
use job_keys::{JobError, JobRule, Part, Position};
use spectral_tables::{Curve, CurveBook, Weights};
use std::alloc::Global;

/// The curve of the cloth of the batch, if there is one.
fn batch_curve(book: &CurveBook, batch: &Option<JobBatch>) -> Result<Option<Curve>, JobError>
    ensures is { Gives (λ c. c) result
        (if_there (λ b. curve_of book.now batch_position b.curve) batch.now) }
    ensures waves { IfOk result (λ o. IfSome o (λ c. length c ≡ wave_count book.now)) }
{
    let Some(batch) = batch else {
        return Ok(None);
    };
    let position = Position {
        part: Part::Batch,
        item: 0,
        sub: 0,
    };
    let curve = curve_of(book, position, batch.curve.as_str())?;
    Ok(Some(curve))
}

/// What dyes are added to: the cloth of the batch, or the undyed cloth.
fn base_curve<'a>(substrate: &'a Curve, batch: &'a Option<Curve>) -> &'a Curve
    ensures { result.now ≡ base_curve substrate.now batch.now }
{
    match batch {
        Some(curve) => curve,
        None => substrate,
    }
}

/// Finds the curves of a job among those of its curve file, and calibrates its dyes by them. The
/// grid and the limits come from the job alone. Else the result is the first fault (a name without
/// a curve, or dyes that are too strong), or that memory ran out. The weights are those of the
/// lights, in their order.
#[tactic(auto, unfolding(crate::specs::Resolve::resolved_job))]
pub fn resolve(
    alloc: Global,
    job: Job,
    book: &CurveBook,
    weights: Vec<Weights>,
) -> Result<Resolved, JobError>
    requires lights { vec_len weights ≡ length job.light.items }
    requires waves { All (λ w. length w.weights ≡ wave_count book.now) weights.items }
    ensures { Gives resolved_view result (resolved_job book.now (job_view job) weights.items) }
{
    let substrate = curve_of(book, JOB_POSITION, job.substrate.as_str())?;
    let standard = curve_of(book, JOB_POSITION, job.standard.as_str())?;
    let dyes = calibrated(alloc, book, &substrate, job.dye.as_slice())?;
    let batch = batch_curve(book, &job.batch)?;
    let limits = limits_of(&job);
    let most = most_steps(job.dye.as_slice());
    let base = base_curve(&substrate, &batch);
    let strong = most_is_too_strong(base, &dyes, limits.bath.as_slice(), most.as_slice());
    JOB_POSITION.ensure(!strong, JobRule::TooStrong)?;
    let grid = grid_of(job.dye.as_slice());
    Ok(Resolved {
        job,
        substrate,
        standard,
        dyes: DyeList::of(dyes),
        grid,
        limits,
        weights: WeightsList::of(weights),
        batch,
    })
}
