//! A pair of dyes of a job.

ghost use Rattle.std.specs.Prelude.{◌≡◌, ◌≤◌, All, IfOk, [], length, map};
ghost use Rattle.toml.specs.View.{table_view};
ghost use Rattle.job_keys.specs.Arrays.{each};
ghost use Rattle.job_keys.specs.Faults.{Gives};
ghost use Rattle.job_keys.specs.Keys.{entries_of};
ghost use Rattle.job_keys.specs.Names.{has_named};
ghost use Rattle.job_keys.specs.Pair.{IsPair, next_pair, pair};

use crate::fault::{JobError, JobRule, Part, Position};
use crate::named::{Named, has_name};
use crate::section::Section;
use crate::text::Text;
use arrayvec::ArrayVec;
use std::alloc::Global;
use toml::Table;

/// Two dyes that may not be used together, by their names.
#[derive(Debug, Default, Drop)]
pub struct JobPair {
    pub a: Text,
    pub b: Text,
}

/// Reads a pair of these dyes.
#[tactic(auto, unfolding(crate::specs::Pair::pair))]
fn pair<N: Named>(alloc: Global, dyes: &[N], table: &Section) -> Result<JobPair, JobError>
    ensures is { Gives (λ p. p) result (pair (has_named N.name_of dyes.now) (entries_of table.now)) }
    ensures names { IfOk result (IsPair (has_named N.name_of dyes.now)) }
{
    table.only_keys(&["a", "b"])?;
    let a = table.name(alloc, "a")?;
    let b = table.name(alloc, "b")?;
    let known = has_name(dyes, a.as_str()) && has_name(dyes, b.as_str());
    table.position.ensure(known, JobRule::UnknownDye)?;
    table
        .position
        .ensure(!(a.as_str() == b.as_str()), JobRule::SamePair)?;
    Ok(JobPair { a, b })
}

/// Reads the next pair, after those in `before`.
fn next_pair<N: Named>(
    alloc: Global,
    dyes: &[N],
    before: &[JobPair],
    table: &Table,
) -> Result<JobPair, JobError>
    requires { length before.now ≤ 66 }
    ensures is { Gives (λ p. p) result (next_pair (has_named N.name_of dyes.now) before.now (table_view table.now)) }
    ensures names { IfOk result (IsPair (has_named N.name_of dyes.now)) }
{
    let position = Position {
        part: Part::Pair,
        item: before.len() as u32 + 1,
        sub: 0,
    };
    pair(alloc, dyes, &Section { position, table })
}

/// Reads the pairs in order.
pub fn pairs<N: Named>(
    alloc: Global,
    dyes: &[N],
    tables: &[&Table],
) -> Result<ArrayVec<JobPair, 66>, JobError>
    requires { length tables.now ≤ 66 }
    ensures is { Gives (λ v. v.items) result
        (each (next_pair (has_named N.name_of dyes.now)) [] (map (λ t. table_view t.now) tables.now)) }
    ensures names { IfOk result (λ v. All (IsPair (has_named N.name_of dyes.now)) v.items) }
{
    let mut pairs = ArrayVec::new();
    for table in tables {
        let next = next_pair(alloc, dyes, pairs.as_slice(), *table)?;
        pairs.push(next);
    }
    Ok(pairs)
}
