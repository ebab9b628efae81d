//! The table of a job, and its text.

ghost use Rattle.std.specs.Prelude.{◌≡◌, IfOk, Some, map, string_bytes};
ghost use Rattle.toml.specs.Data.{table};
ghost use Rattle.toml.specs.View.{table_view, view};
ghost use Rattle.job_file.specs.Job.{tree_of};
ghost use Rattle.demo_jobs.specs.JobTable.{dye_table, dyeing_table, dyeing_tables, job_table, light_table, light_tables};

use crate::book::{dye_name, dyeing_name};
use crate::dyes::DrawnDye;
use crate::standard::{DYEINGS, STEP};
use crate::tables::{put, put_text, put_whole};
use std::alloc::{AllocError, Global};
use toml::{Table, Value, table_to_string};

/// The table of a light: the file of its weights, and its tolerance.
#[tactic(auto, unfolding(crate::specs::JobTable::light_table))]
fn light_table(alloc: Global, weights: &str, tolerance: u32) -> Result<Table, AllocError>
    ensures { IfOk result (λ t. table_view t ≡ light_table weights.now tolerance) }
{
    let mut table = Table::new(alloc);
    put_text(alloc, &mut table, "weights", weights)?;
    put_whole(alloc, &mut table, "tolerance", tolerance)?;
    Ok(table)
}

/// The tables of the two lights.
#[tactic(auto, unfolding(crate::specs::JobTable::light_tables))]
fn light_tables(alloc: Global) -> Result<Vec<Value>, AllocError>
    ensures { IfOk result (λ v. map view v.items ≡ map table light_tables) }
{
    let mut lights = Vec::new(alloc);
    lights.push(Value::Table(light_table(alloc, "demo1.csv", 1000)?))?;
    lights.push(Value::Table(light_table(alloc, "demo2.csv", 1500)?))?;
    Ok(lights)
}

/// The table of a dyeing, given as its number and its units, of the dye with a number.
#[tactic(auto, unfolding(crate::specs::JobTable::dyeing_table))]
fn dyeing_table(alloc: Global, dye: u32, dyeing: (u32, u32)) -> Result<Table, AllocError>
    ensures { IfOk result (λ t. table_view t ≡ dyeing_table dye dyeing) }
{
    let (number, units) = dyeing;
    let mut table = Table::new(alloc);
    put_whole(alloc, &mut table, "units", units)?;
    put_text(
        alloc,
        &mut table,
        "curve",
        dyeing_name(alloc, dye, number)?.as_str(),
    )?;
    Ok(table)
}

/// The tables of the dyeings of the dye with a number.
#[tactic(auto, unfolding(crate::specs::JobTable::dyeing_tables))]
fn dyeing_tables(alloc: Global, dye: u32) -> Result<Vec<Value>, AllocError>
    ensures { IfOk result (λ v. map view v.items ≡ map table (dyeing_tables dye)) }
{
    let mut tables = Vec::new(alloc);
    for dyeing in DYEINGS {
        tables.push(Value::Table(dyeing_table(alloc, dye, dyeing)?))?;
    }
    Ok(tables)
}

/// The table of a dye.
#[tactic(auto, unfolding(crate::specs::JobTable::dye_table))]
fn dye_table(alloc: Global, dye: &DrawnDye) -> Result<Table, AllocError>
    ensures { IfOk result (λ t. table_view t ≡ dye_table dye.now) }
{
    let mut table = Table::new(alloc);
    put_text(
        alloc,
        &mut table,
        "name",
        dye_name(alloc, dye.number)?.as_str(),
    )?;
    put_whole(alloc, &mut table, "price", dye.price)?;
    put_whole(alloc, &mut table, "fee", dye.fee)?;
    put_whole(alloc, &mut table, "step", STEP)?;
    put_whole(alloc, &mut table, "most", 400)?;
    let dyeings = dyeing_tables(alloc, dye.number)?;
    put(alloc, &mut table, "dyeing", Value::Array(dyeings))?;
    Ok(table)
}

/// The tables of the dyes.
fn dye_tables(alloc: Global, dyes: &[DrawnDye]) -> Result<Vec<Value>, AllocError>
    ensures { IfOk result (λ v. map view v.items ≡ map table (map dye_table dyes.now)) }
{
    let mut tables = Vec::new(alloc);
    for dye in dyes {
        tables.push(Value::Table(dye_table(alloc, dye)?))?;
    }
    Ok(tables)
}

/// The table of a job with these dyes.
#[tactic(auto, unfolding(crate::specs::JobTable::job_table))]
fn job_table(alloc: Global, dyes: &[DrawnDye]) -> Result<Table, AllocError>
    ensures { IfOk result (λ t. table_view t ≡ job_table dyes.now) }
{
    let mut table = Table::new(alloc);
    put_whole(alloc, &mut table, "version", 1)?;
    put_text(alloc, &mut table, "curves", "demo.csv")?;
    put_text(alloc, &mut table, "substrate", "sub")?;
    put_text(alloc, &mut table, "standard", "std")?;
    put_whole(alloc, &mut table, "max_dyes", 3)?;
    put_whole(alloc, &mut table, "max_total", 8000)?;
    put_whole(alloc, &mut table, "budget", 20000)?;
    let lights = light_tables(alloc)?;
    put(alloc, &mut table, "light", Value::Array(lights))?;
    let dyes = dye_tables(alloc, dyes)?;
    put(alloc, &mut table, "dye", Value::Array(dyes))?;
    Ok(table)
}

/// A TOML text that reads as the table of a job with these dyes.
pub(crate) fn job_text(alloc: Global, dyes: &[DrawnDye]) -> Result<String, AllocError>
    ensures { IfOk result (λ text. tree_of (string_bytes text) ≡ Some (job_table dyes.now)) }
{
    let table = job_table(alloc, dyes)?;
    match table_to_string(alloc, &table) {
        Ok(text) => Ok(text),
        Err(_) => Err(AllocError),
    }
}
