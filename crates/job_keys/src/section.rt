//! A table of a job with its position.

ghost use Rattle.std.specs.Prelude.{◌≡◌, map, option_map, string_bytes};
ghost use Rattle.std.specs.List.{list_all, list_any};
ghost use Rattle.std.specs.Map.{keys_of};
ghost use Rattle.std.specs.Str.{bytes_eq};
ghost use Rattle.toml.specs.Data.{get_member};
ghost use Rattle.toml.specs.View.{table_view, view};
ghost use Rattle.job_keys.specs.Faults.{Gives};
ghost use Rattle.job_keys.specs.Keys.{entries_of, has_only, only_keys, required};

use crate::fault::{JobError, JobRule, Position};
use toml::{Table, Value};

/// A table of a job, and its position.
#[derive(Clone, Copy, Drop)]
pub struct Section<'a> {
    pub position: Position,
    pub table: &'a Table,
}

fn is_one_of(keys: &[&str], key: &str) -> bool
    ensures { result ≡ list_any (λ k. bytes_eq k.now key.now) keys.now }
{
    keys.iter().any(|k| *k == key)
}

fn are_keys_of(keys: &[&str], table: &Table) -> bool
    ensures { result ≡ list_all (λ k. list_any (λ w. bytes_eq w.now (string_bytes k)) keys.now)
        (keys_of table.now.entries) }
{
    table.keys().all(|key| is_one_of(keys, key.as_str()))
}

/// Whether the table has no keys but these.
fn has_only(keys: &[&str], table: &Table) -> bool
    ensures { result ≡ has_only (map (λ k. k.now) keys.now) (table_view table.now) }
{
    are_keys_of(keys, table)
}

impl<'a> Section<'a> {
    /// Checks that the table has no keys but these.
    pub fn only_keys(&self, keys: &[&str]) -> Result<(), JobError>
        ensures { Gives (λ x. x) result
            (only_keys (map (λ k. k.now) keys.now) (entries_of self.now)) }
    {
        self.position
            .ensure(has_only(keys, self.table), JobRule::UnknownKey)
    }

    /// The value of a key.
    pub fn get(&self, key: &str) -> Option<&'a Value>
        ensures { option_map (λ v. view v.now) result
            ≡ get_member key.now (entries_of self.now).members }
    {
        self.table.get(key)
    }

    /// The value of a key that must be there.
    pub fn required(&self, key: &str) -> Result<&'a Value, JobError>
        ensures { Gives (λ v. view v.now) result (required key.now (entries_of self.now)) }
    {
        match self.get(key) {
            Some(value) => Ok(value),
            None => Err(self.position.fault(JobRule::MissingKey)),
        }
    }
}
