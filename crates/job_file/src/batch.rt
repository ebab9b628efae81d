//! The batch of a job that is to be corrected.

ghost use Rattle.std.specs.Prelude.{◌≡◌, ◌≤◌, IfOk, IfSome, [], length, option_map};
ghost use Rattle.toml.specs.Data.{as_integer};
ghost use Rattle.toml.specs.View.{items_view, table_view};
ghost use Rattle.job_keys.specs.Arrays.{all_after, if_there, naturals_after, wholes};
ghost use Rattle.job_file.specs.Batch.{IsBatch, are_within, batch, batch_of};
ghost use Rattle.job_keys.specs.Faults.{Gives, or_fault};
ghost use Rattle.job_keys.specs.Keys.{entries_of};

use crate::dye::JobDye;
use job_keys::{JobError, JobRule, Part, Position, Section, Text, count_in, natural_in};
use price_grid::Steps;
use std::alloc::Global;
use toml::{Table, Value};

/// The batch that came out wrong: its measured curve, and the steps of each dye that are in its
/// bath.
#[derive(Debug, Default, Drop)]
pub struct JobBatch {
    /// The name of its measured curve.
    pub curve: Text,
    /// The steps of each dye, in the order of the dyes.
    pub steps: Steps,
}

/// The values as whole numbers, or a fault where one is not a whole number.
fn all_numbers(alloc: Global, position: Position, values: &[Value]) -> Result<Vec<i64>, JobError>
    ensures { Gives (λ v. v.items) result
        (or_fault position JobRule.WrongKind (all_after as_integer [] (items_view values.now))) }
{
    let mut numbers = Vec::new(alloc);
    for value in values {
        let number = value
            .as_integer()
            .ok_or(position.fault(JobRule::WrongKind))?;
        if numbers.push(number).is_err() {
            return Err(JobError::Memory);
        }
    }
    Ok(numbers)
}

/// The numbers as steps, each 0 to 4,000.
fn steps_of(position: Position, numbers: &[i64]) -> Result<Steps, JobError>
    requires { length numbers.now ≤ 12 }
    ensures { Gives (λ s. s.items) result
        (or_fault position JobRule.OutOfRange (naturals_after 0 4000 [] numbers.now)) }
{
    let mut steps = Steps::new();
    for number in numbers {
        let n = natural_in(0, 4000, *number).ok_or(position.fault(JobRule::OutOfRange))?;
        steps.push(n as u16);
    }
    Ok(steps)
}

/// The steps of a required key: one to twelve whole numbers, each 0 to 4,000.
#[tactic(auto, unfolding(job_keys::specs::Arrays::wholes))]
fn numbers_of_steps(alloc: Global, table: &Section, key: &str) -> Result<Steps, JobError>
    ensures { Gives (λ s. s.items) result
        (wholes key.now 1 12 0 4000 (entries_of table.now)) }
{
    let value = table.required(key)?;
    let items = value
        .as_array()
        .ok_or(table.position.fault(JobRule::WrongKind))?;
    let numbers = all_numbers(alloc, table.position, items.as_slice())?;
    count_in(table.position, 1, 12, numbers.len())?;
    steps_of(table.position, &numbers)
}

/// Whether each number of steps is at most the `most` of its dye.
fn are_within(dyes: &[JobDye], steps: &[u16]) -> bool
    requires { length steps.now ≡ length dyes.now }
    ensures is { result ≡ are_within dyes.now steps.now }
{
    for (i, dye) in dyes.iter().enumerate() {
        if steps[i] > dye.most {
            return false;
        }
    }
    true
}

/// Reads the batch of a job with these dyes.
#[tactic(auto, unfolding(crate::specs::Batch::batch))]
fn batch(alloc: Global, dyes: &[JobDye], table: &Section) -> Result<JobBatch, JobError>
    ensures is { Gives (λ b. b) result (batch dyes.now (entries_of table.now)) }
    ensures range { IfOk result (IsBatch dyes.now) }
{
    table.only_keys(&["curve", "steps"])?;
    let curve = table.name(alloc, "curve")?;
    let steps = numbers_of_steps(alloc, table, "steps")?;
    table
        .position
        .ensure(steps.len() == dyes.len(), JobRule::BatchLength)?;
    let fits = are_within(dyes, steps.as_slice());
    table.position.ensure(fits, JobRule::OutOfRange)?;
    Ok(JobBatch { curve, steps })
}

/// Reads the batch, if there is one.
pub(crate) fn batch_of(
    alloc: Global,
    dyes: &[JobDye],
    table: Option<&Table>,
) -> Result<Option<JobBatch>, JobError>
    ensures is { Gives (λ b. b) result
        (if_there (batch_of dyes.now) (option_map (λ t. table_view t.now) table.entry)) }
    ensures range { IfOk result (λ o. IfSome o (IsBatch dyes.now)) }
{
    let Some(table) = table else {
        return Ok(None);
    };
    let position = Position {
        part: Part::Batch,
        item: 0,
        sub: 0,
    };
    let read = batch(alloc, dyes, &Section { position, table })?;
    Ok(Some(read))
}
