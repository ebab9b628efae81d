//! Reading a job.

ghost use Rattle.std.specs.Prelude.{◌≡◌, ◌≤◌, All, IfOk, [], length, map};
ghost use Rattle.toml.specs.View.{table_view};
ghost use Rattle.job_keys.specs.Arrays.{each};
ghost use Rattle.job_keys.specs.Faults.{Gives, or_fault};
ghost use Rattle.job_file.specs.Dye.{has_dye};
ghost use Rattle.job_file.specs.Job.{job_at, job_of, job_position, tree_of};
ghost use Rattle.job_file.specs.JobView.{job_view};
ghost use Rattle.job_keys.specs.Keys.{entries_of};
ghost use Rattle.job_keys.specs.Pair.{IsPair, next_pair};

use crate::batch::batch_of;
use crate::dye::{JobDye, dyes};
use crate::job::Job;
use crate::top::{BatchRule, find_inner, keys, read_head};
use arrayvec::ArrayVec;
use job_keys::{JobError, JobPair, JobRule, Part, Position, Section, lights, pairs};
use std::alloc::Global;
use toml::{Table, table_from_slice};

pub(crate) const JOB_POSITION: Position = Position {
    part: Part::Job,
    item: 0,
    sub: 0,
};

/// The table of a TOML document.
fn document(alloc: Global, bytes: &[u8]) -> Result<Table, JobError>
    ensures { Gives table_view result (or_fault job_position JobRule.NotToml (tree_of bytes.now)) }
{
    match table_from_slice(alloc, bytes) {
        Ok(table) => Ok(table),
        Err(error) => {
            if error.is_memory() {
                Err(JobError::Memory)
            } else {
                Err(JOB_POSITION.fault(JobRule::NotToml))
            }
        }
    }
}

/// Reads the pairs of these dyes in order.
fn pairs_of(
    alloc: Global,
    dyes: &[JobDye],
    tables: &[&Table],
) -> Result<ArrayVec<JobPair, 66>, JobError>
    requires { length tables.now ≤ 66 }
    ensures is { Gives (λ v. v.items) result
        (each (next_pair (has_dye dyes.now)) [] (map (λ t. table_view t.now) tables.now)) }
    ensures names { IfOk result (λ v. All (IsPair (has_dye dyes.now)) v.items) }
{
    pairs(alloc, dyes, tables)
}

/// Reads the table of a whole job.
#[tactic(auto, unfolding(crate::specs::Job::job_at))]
fn job(alloc: Global, rule: BatchRule, table: &Section) -> Result<Job, JobError>
    ensures { Gives job_view result (job_at rule (entries_of table.now)) }
{
    keys(rule, table)?;
    let head = read_head(alloc, table)?;
    let found = find_inner(alloc, rule, table)?;
    let light = lights(alloc, &found.light)?;
    let dye = dyes(alloc, &found.dye)?;
    let pair = pairs_of(alloc, dye.as_slice(), &found.pair)?;
    let batch = batch_of(alloc, dye.as_slice(), found.batch)?;
    Ok(Job {
        version: 1,
        curves: head.curves,
        substrate: head.substrate,
        standard: head.standard,
        load: head.load,
        max_dyes: head.max_dyes,
        max_total: head.max_total,
        max_cost: head.max_cost,
        budget: head.budget,
        light,
        dye,
        pair,
        batch,
    })
}

/// Reads a job. The error is its first fault with its position, or that memory ran out.
#[tactic(auto, unfolding(crate::specs::Job::job_of))]
pub fn read_job(alloc: Global, bytes: &[u8], batch: BatchRule) -> Result<Job, JobError>
    ensures { Gives job_view result (job_of batch bytes.now) }
{
    let table = document(alloc, bytes)?;
    job(
        alloc,
        batch,
        &Section {
            position: JOB_POSITION,
            table: &table,
        },
    )
}
