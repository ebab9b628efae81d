//! A dye of a job.

ghost use Rattle.std.specs.Prelude.{◌≡◌, ◌≤◌, All, IfOk, [], false, length, map};
ghost use Rattle.toml.specs.View.{table_view};
ghost use Rattle.job_keys.specs.Arrays.{each};
ghost use Rattle.job_file.specs.Dye.{IsDye, NamesDiffer, dye, has_dye, next_dye};
ghost use Rattle.job_keys.specs.Faults.{Gives};
ghost use Rattle.job_keys.specs.Keys.{entries_of};

use crate::dyeing::{JobDyeing, dyeings};
use arrayvec::ArrayVec;
use job_keys::{JobError, JobRule, Named, Part, Position, Section, Text, has_name};
use std::alloc::Global;
use toml::Table;

/// A dye that a recipe may use.
#[derive(Debug, Default, Drop)]
pub struct JobDye {
    /// Its name, which no other dye of the job has.
    pub name: Text,
    /// The price of a unit of dye, which is 0.001 percent of the weight of the cloth: 0 to
    /// 1,000,000 cost units.
    pub price: u64,
    /// The fee that is paid once if any of it is used, 0 to 10^12 cost units.
    pub fee: u64,
    /// The units of one step, 1 to 20,000.
    pub step: u32,
    /// The fewest steps of it in a recipe that uses it, 1 to 4,000. In a correction what is in the
    /// bath counts, too.
    pub least: u16,
    /// The most steps of it in a recipe, 1 to 4,000; together they weigh at most 20,000 units. In a
    /// correction what is in the bath counts, too.
    pub most: u16,
    /// Its laboratory dyeings, one to eight.
    pub dyeing: ArrayVec<JobDyeing, 8>,
}

impl Named for JobDye {
    ghost name_of = { λ d. d.name };

    fn name(&self) -> &str {
        self.name.as_str()
    }
}

/// Reads a dye that comes after those in `before`.
#[tactic(auto, unfolding(crate::specs::Dye::dye))]
fn dye(alloc: Global, before: &[JobDye], table: &Section) -> Result<JobDye, JobError>
    ensures is { Gives (λ d. d) result (dye before.now (entries_of table.now)) }
    ensures range { IfOk result IsDye }
    ensures new { IfOk result (λ d. has_dye before.now d.name ≡ false) }
{
    table.only_keys(&["name", "price", "fee", "step", "least", "most", "dyeing"])?;
    let name = table.name(alloc, "name")?;
    let price = table.whole("price", 0, 1_000_000)?;
    let fee = table.whole_or("fee", 0, 1_000_000_000_000, 0)?;
    let step = table.whole("step", 1, 20_000)?;
    let least = table.whole_or("least", 1, 4000, 1)?;
    let most = table.whole("most", 1, 4000)?;
    let tables = table.tables(alloc, "dyeing", 1, 8)?;
    let dyeing = dyeings(alloc, table.position.item, &tables)?;
    table.position.ensure(least <= most, JobRule::OutOfRange)?;
    table
        .position
        .ensure(step * most <= 20_000, JobRule::TooWide)?;
    table
        .position
        .ensure(!has_name(before, name.as_str()), JobRule::DoubleDye)?;
    Ok(JobDye {
        name,
        price,
        fee,
        step: step as u32,
        least: least as u16,
        most: most as u16,
        dyeing,
    })
}

/// Reads the next dye, after those in `before`.
fn next_dye(alloc: Global, before: &[JobDye], table: &Table) -> Result<JobDye, JobError>
    requires { length before.now ≤ 12 }
    ensures is { Gives (λ d. d) result (next_dye before.now (table_view table.now)) }
    ensures range { IfOk result IsDye }
    ensures new { IfOk result (λ d. has_dye before.now d.name ≡ false) }
{
    let position = Position {
        part: Part::Dye,
        item: before.len() as u32 + 1,
        sub: 0,
    };
    dye(alloc, before, &Section { position, table })
}

/// Reads the dyes in order.
#[tactic(auto, using(crate::proofs::NameFacts::names_differ_push))]
pub(crate) fn dyes(alloc: Global, tables: &[&Table]) -> Result<ArrayVec<JobDye, 12>, JobError>
    requires { length tables.now ≤ 12 }
    ensures is { Gives (λ v. v.items) result
        (each next_dye [] (map (λ t. table_view t.now) tables.now)) }
    ensures count { IfOk result (λ v. length v.items ≡ length tables.now) }
    ensures range { IfOk result (λ v. All IsDye v.items) }
    ensures differ { IfOk result (λ v. NamesDiffer v.items) }
{
    let mut dyes = ArrayVec::new();
    for table in tables {
        let next = next_dye(alloc, dyes.as_slice(), *table)?;
        dyes.push(next);
    }
    Ok(dyes)
}
