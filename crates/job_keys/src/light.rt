//! A light of a job.

ghost use Rattle.std.specs.Prelude.{◌≡◌, ◌≤◌, All, IfOk, List, [], length, map};
ghost use Rattle.toml.specs.View.{table_view};
ghost use Rattle.job_keys.specs.Arrays.{each};
ghost use Rattle.job_keys.specs.Faults.{Gives};
ghost use Rattle.job_keys.specs.Keys.{entries_of};
ghost use Rattle.job_keys.specs.Light.{IsLight, light, next_light};

use crate::fault::{JobError, Part, Position};
use crate::section::Section;
use crate::text::Text;
use arrayvec::ArrayVec;
use std::alloc::Global;
use toml::Table;

/// A light under which the cloth is judged.
#[derive(Debug, Default, Drop)]
pub struct JobLight {
    /// The name of the file of its weights.
    pub weights: Text,
    /// The highest difference that passes, 0 to 100,000 thousandths.
    pub tolerance: u32,
    /// The weight l of CMC(l:c), 1 to 100 tenths.
    pub l10: u8,
    /// The weight c of CMC(l:c), 1 to 100 tenths.
    pub c10: u8,
}

/// Reads a light.
#[tactic(auto, unfolding(crate::specs::Light::light))]
fn light(alloc: Global, table: &Section) -> Result<JobLight, JobError>
    ensures is { Gives (λ l. l) result (light (entries_of table.now)) }
    ensures range { IfOk result IsLight }
{
    table.only_keys(&["weights", "tolerance", "l10", "c10"])?;
    let weights = table.file_text(alloc, "weights")?;
    let tolerance = table.whole("tolerance", 0, 100_000)?;
    let l10 = table.whole_or("l10", 1, 100, 20)?;
    let c10 = table.whole_or("c10", 1, 100, 10)?;
    Ok(JobLight {
        weights,
        tolerance: tolerance as u32,
        l10: l10 as u8,
        c10: c10 as u8,
    })
}

/// Reads the next light, after those in `before`.
fn next_light(alloc: Global, before: &[JobLight], table: &Table) -> Result<JobLight, JobError>
    requires { length before.now ≤ 4 }
    ensures is { Gives (λ l. l) result (next_light before.now (table_view table.now)) }
    ensures range { IfOk result IsLight }
{
    let position = Position {
        part: Part::Light,
        item: before.len() as u32 + 1,
        sub: 0,
    };
    light(alloc, &Section { position, table })
}

/// Reads the lights in order.
pub fn lights(alloc: Global, tables: &[&Table]) -> Result<ArrayVec<JobLight, 4>, JobError>
    requires { length tables.now ≤ 4 }
    ensures is { Gives (λ v. v.items) result
        (each next_light [] (map (λ t. table_view t.now) tables.now)) }
    ensures count { IfOk result (λ v. length v.items ≡ length tables.now) }
    ensures range { IfOk result (λ v. All IsLight v.items) }
{
    let mut lights = ArrayVec::new();
    for table in tables {
        let next = next_light(alloc, lights.as_slice(), *table)?;
        lights.push(next);
    }
    Ok(lights)
}
