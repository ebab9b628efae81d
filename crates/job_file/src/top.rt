//! The table of a whole job.

ghost use Rattle.std.specs.Prelude.{◌≡◌, ◌≤◌, IfOk, is_some, vec_len, option_map};
ghost use Rattle.toml.specs.View.{table_view};
ghost use Rattle.job_keys.specs.Faults.{Gives};
ghost use Rattle.job_keys.specs.Keys.{entries_of, only_keys};
ghost use Rattle.job_file.specs.Top.{IsHead, has_key, head, inner, job_keys, keys, needs_batch, takes_batch, version_of};
ghost use Rattle.job_file.specs.TopView.{inner_view};

use job_keys::{JobError, JobRule, Section, Text, natural_in};
use std::alloc::Global;
use toml::Table;

/// Whether a job must not, must, or may have a batch.
#[derive(Clone, Copy, Debug, PartialEq, Eq)]
pub enum BatchRule {
    /// A batch is an unknown key.
    Without,
    /// A batch is required.
    With,
    /// A batch may be there.
    Either,
}

/// Whether a job by this rule may have a batch.
fn takes_batch(rule: BatchRule) -> bool
    ensures { result ≡ takes_batch rule }
{
    match rule {
        BatchRule::Without => false,
        BatchRule::With | BatchRule::Either => true,
    }
}

/// Whether a job by this rule must have a batch.
fn needs_batch(rule: BatchRule) -> bool
    ensures { result ≡ needs_batch rule }
{
    match rule {
        BatchRule::With => true,
        BatchRule::Without | BatchRule::Either => false,
    }
}

/// The texts and numbers of a job.
#[derive(Drop)]
pub(crate) struct Head {
    pub curves: Text,
    pub substrate: Text,
    pub standard: Text,
    pub load: u32,
    pub max_dyes: u8,
    pub max_total: u32,
    pub max_cost: Option<u64>,
    pub budget: u32,
}

/// The tables in a job.
#[derive(Drop)]
pub(crate) struct Inner<'a> {
    pub light: Vec<&'a Table>,
    pub dye: Vec<&'a Table>,
    pub pair: Vec<&'a Table>,
    pub batch: Option<&'a Table>,
}

/// Whether a key is there.
fn has_key(table: &Section, key: &str) -> bool
    ensures { result ≡ has_key key.now (entries_of table.now) }
{
    table.get(key).is_some()
}

/// The version of a job, if it is a known one.
fn version_of(table: &Section) -> Option<u64>
    ensures { result ≡ version_of (entries_of table.now).members }
{
    let value = table.get("version")?;
    let number = value.as_integer()?;
    natural_in(1, 1, number)
}

/// Checks that a table has no keys but those of a job.
fn only_job_keys(table: &Section) -> Result<(), JobError>
    ensures { Gives (λ x. x) result (only_keys job_keys (entries_of table.now)) }
{
    table.only_keys(&[
        "version",
        "curves",
        "substrate",
        "standard",
        "load",
        "max_dyes",
        "max_total",
        "max_cost",
        "budget",
        "light",
        "dye",
        "pair",
        "batch",
    ])
}

/// Checks that the version is 1, and that no key is unknown.
#[tactic(auto, unfolding(crate::specs::Top::keys))]
pub(crate) fn keys(rule: BatchRule, table: &Section) -> Result<(), JobError>
    ensures { Gives (λ x. x) result (keys rule (entries_of table.now)) }
{
    version_of(table).ok_or(table.position.fault(JobRule::NotVersion1))?;
    only_job_keys(table)?;
    let known = takes_batch(rule) || !has_key(table, "batch");
    table.position.ensure(known, JobRule::UnknownKey)
}

/// Reads the texts and numbers of a job.
#[tactic(auto, unfolding(crate::specs::Top::head))]
pub(crate) fn read_head(alloc: Global, table: &Section) -> Result<Head, JobError>
    ensures is { Gives (λ h. h) result (head (entries_of table.now)) }
    ensures range { IfOk result IsHead }
{
    let curves = table.file_text(alloc, "curves")?;
    let substrate = table.name(alloc, "substrate")?;
    let standard = table.name(alloc, "standard")?;
    let load = table.whole_or("load", 1, 100_000, 1)?;
    let max_dyes = table.whole_or("max_dyes", 1, 12, 12)?;
    let max_total = table.whole_or("max_total", 1, 240_000, 240_000)?;
    let max_cost = table.whole_if_any("max_cost", 0, 1_000_000_000_000_000)?;
    let budget = table.whole_or("budget", 1, 1_000_000, 100_000)?;
    Ok(Head {
        curves,
        substrate,
        standard,
        load: load as u32,
        max_dyes: max_dyes as u8,
        max_total: max_total as u32,
        max_cost,
        budget: budget as u32,
    })
}

/// Finds the tables in a job.
#[tactic(auto, unfolding(crate::specs::Top::inner))]
pub(crate) fn find_inner<'a>(
    alloc: Global,
    rule: BatchRule,
    table: &Section<'a>,
) -> Result<Inner<'a>, JobError>
    ensures is { Gives inner_view result (inner rule (entries_of table.now)) }
    ensures lights { IfOk result (λ i. (1 ≤ vec_len i.light) × (vec_len i.light ≤ 2)) }
    ensures dyes { IfOk result (λ i. (1 ≤ vec_len i.dye) × (vec_len i.dye ≤ 12)) }
    ensures pairs { IfOk result (λ i. vec_len i.pair ≤ 66) }
{
    let light = table.tables(alloc, "light", 1, 2)?;
    let dye = table.tables(alloc, "dye", 1, 12)?;
    let pair = table.tables_or_none(alloc, "pair", 66)?;
    let there = !needs_batch(rule) || has_key(table, "batch");
    table.position.ensure(there, JobRule::MissingKey)?;
    let batch = table.table_if_any("batch")?;
    Ok(Inner {
        light,
        dye,
        pair,
        batch,
    })
}
