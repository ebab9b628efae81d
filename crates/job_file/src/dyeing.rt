//! A dyeing of a dye.

ghost use Rattle.std.specs.Prelude.{◌≡◌, ◌≤◌, All, IfOk, List, [], length, map};
ghost use Rattle.toml.specs.View.{table_view};
ghost use Rattle.job_keys.specs.Arrays.{each};
ghost use Rattle.job_file.specs.Dyeing.{IsDyeing, dyeing, next_dyeing};
ghost use Rattle.job_keys.specs.Faults.{Gives};
ghost use Rattle.job_keys.specs.Keys.{entries_of};

use arrayvec::ArrayVec;
use job_keys::{JobError, Part, Position, Section, Text};
use std::alloc::Global;
use toml::Table;

/// A laboratory dyeing with one dye.
#[derive(Debug, Default, Drop)]
pub struct JobDyeing {
    /// The dye on the cloth, 1 to 20,000 units of 0.001 percent of the weight of the cloth.
    pub units: u32,
    /// The name of its measured curve.
    pub curve: Text,
}

/// Reads a dyeing.
#[tactic(auto, unfolding(crate::specs::Dyeing::dyeing))]
fn dyeing(alloc: Global, table: &Section) -> Result<JobDyeing, JobError>
    ensures is { Gives (λ d. d) result (dyeing (entries_of table.now)) }
    ensures range { IfOk result IsDyeing }
{
    table.only_keys(&["units", "curve"])?;
    let units = table.whole("units", 1, 20_000)?;
    let curve = table.name(alloc, "curve")?;
    Ok(JobDyeing {
        units: units as u32,
        curve,
    })
}

/// Reads the next dyeing of the dye with this number, after those in `before`.
fn next_dyeing(
    alloc: Global,
    dye: u32,
    before: &[JobDyeing],
    table: &Table,
) -> Result<JobDyeing, JobError>
    requires { length before.now ≤ 8 }
    ensures is { Gives (λ d. d) result (next_dyeing dye before.now (table_view table.now)) }
    ensures range { IfOk result IsDyeing }
{
    let position = Position {
        part: Part::Dyeing,
        item: dye,
        sub: before.len() as u32 + 1,
    };
    dyeing(alloc, &Section { position, table })
}

/// Reads the dyeings of the dye with this number in order.
pub(crate) fn dyeings(
    alloc: Global,
    dye: u32,
    tables: &[&Table],
) -> Result<ArrayVec<JobDyeing, 8>, JobError>
    requires { length tables.now ≤ 8 }
    ensures is { Gives (λ v. v.items) result
        (each (next_dyeing dye) [] (map (λ t. table_view t.now) tables.now)) }
    ensures count { IfOk result (λ v. length v.items ≡ length tables.now) }
    ensures range { IfOk result (λ v. All IsDyeing v.items) }
{
    let mut dyeings = ArrayVec::new();
    for table in tables {
        let next = next_dyeing(alloc, dye, dyeings.as_slice(), *table)?;
        dyeings.push(next);
    }
    Ok(dyeings)
}
