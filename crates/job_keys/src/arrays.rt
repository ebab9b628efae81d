//! The arrays of a table of a job.

ghost use Rattle.std.specs.Prelude.{◌≡◌, ◌≤◌, ◌&&◌, IfOk, [], map, nat_le, option_map, vec_len};
ghost use Rattle.toml.specs.Data.{as_table};
ghost use Rattle.toml.specs.View.{items_view, table_view, view};
ghost use Rattle.job_keys.specs.Arrays.{all_after, array_in, table_if_any, tables, tables_or_none};
ghost use Rattle.job_keys.specs.Faults.{Gives, ensure, or_fault};
ghost use Rattle.job_keys.specs.Keys.{entries_of};

use crate::fault::{JobError, JobRule, Position};
use crate::section::Section;
use std::alloc::Global;
use toml::{Table, Value};

/// The values as tables, or a fault where one is not a table.
fn all_tables<'a>(
    alloc: Global,
    position: Position,
    values: &'a [Value],
) -> Result<Vec<&'a Table>, JobError>
    ensures { Gives (λ v. map (λ t. table_view t.now) v.items) result
        (or_fault position JobRule.WrongKind (all_after as_table [] (items_view values.now))) }
{
    let mut tables = Vec::new(alloc);
    for value in values {
        let table = value.as_table().ok_or(position.fault(JobRule::WrongKind))?;
        if tables.push(table).is_err() {
            return Err(JobError::Memory);
        }
    }
    Ok(tables)
}

/// Checks that the number of items of an array is in a range.
pub fn count_in(position: Position, low: usize, high: usize, count: usize) -> Result<(), JobError>
    ensures is { Gives (λ x. x) result
        (ensure position JobRule.BadCount (nat_le low count && nat_le count high)) }
    ensures range { IfOk result (λ _. (low ≤ count) × (count ≤ high)) }
{
    if low <= count && count <= high {
        Ok(())
    } else {
        Err(position.fault(JobRule::BadCount))
    }
}

/// The tables of an array, whose number is in a range.
fn tables_in<'a>(
    alloc: Global,
    low: usize,
    high: usize,
    position: Position,
    value: &'a Value,
) -> Result<Vec<&'a Table>, JobError>
    ensures is { Gives (λ v. map (λ t. table_view t.now) v.items) result
        (array_in as_table low high position (view value.now)) }
    ensures range { IfOk result (λ v. (low ≤ vec_len v) × (vec_len v ≤ high)) }
{
    let items = value.as_array().ok_or(position.fault(JobRule::WrongKind))?;
    let tables = all_tables(alloc, position, items.as_slice())?;
    count_in(position, low, high, tables.len())?;
    Ok(tables)
}

impl<'a> Section<'a> {
    /// The tables of a required key, whose number is in a range.
    #[tactic(auto, unfolding(crate::specs::Arrays::tables))]
    pub fn tables(
        &self,
        alloc: Global,
        key: &str,
        low: usize,
        high: usize,
    ) -> Result<Vec<&'a Table>, JobError>
        ensures is { Gives (λ v. map (λ t. table_view t.now) v.items) result
            (tables key.now low high (entries_of self.now)) }
        ensures range { IfOk result (λ v. (low ≤ vec_len v) × (vec_len v ≤ high)) }
    {
        let value = self.required(key)?;
        tables_in(alloc, low, high, self.position, value)
    }

    /// The tables of a key, at most `high`; none where the key is absent.
    #[tactic(auto, unfolding(crate::specs::Arrays::tables_or_none))]
    pub fn tables_or_none(
        &self,
        alloc: Global,
        key: &str,
        high: usize,
    ) -> Result<Vec<&'a Table>, JobError>
        ensures is { Gives (λ v. map (λ t. table_view t.now) v.items) result
            (tables_or_none key.now high (entries_of self.now)) }
        ensures range { IfOk result (λ v. vec_len v ≤ high) }
    {
        match self.get(key) {
            None => Ok(Vec::new(alloc)),
            Some(value) => tables_in(alloc, 0, high, self.position, value),
        }
    }

    /// The table of a key, if the key is there.
    #[tactic(auto, unfolding(crate::specs::Arrays::table_if_any))]
    pub fn table_if_any(&self, key: &str) -> Result<Option<&'a Table>, JobError>
        ensures { Gives (option_map (λ t. table_view t.now)) result
            (table_if_any key.now (entries_of self.now)) }
    {
        match self.get(key) {
            None => Ok(None),
            Some(value) => {
                let table = value
                    .as_table()
                    .ok_or(self.position.fault(JobRule::WrongKind))?;
                Ok(Some(table))
            }
        }
    }
}
