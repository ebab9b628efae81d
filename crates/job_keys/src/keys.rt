//! The values that the keys of a table must have.

ghost use Rattle.std.specs.Prelude.{◌≡◌, ◌≤◌, IfOk, IfSome, Some, option_map, true};
ghost use Rattle.spectral_tables.specs.Name.{is_name};
ghost use Rattle.toml.specs.View.{view};
ghost use Rattle.job_keys.specs.Faults.{Gives};
ghost use Rattle.job_keys.specs.Keys.{entries_of, file_text, name, natural_in, text_in, whole, whole_if_any, whole_in, whole_or};
ghost use Rattle.job_keys.specs.Texts.{is_file_text};

use crate::fault::{JobError, JobRule, Position};
use crate::section::Section;
use crate::text::{Text, is_file_text};
use spectral_tables::is_name;
use std::alloc::Global;
use toml::Value;

/// The number, if it is in a range.
pub fn natural_in(low: u64, high: u64, number: i64) -> Option<u64>
    ensures is { result ≡ natural_in low high number }
    ensures range { IfSome result (λ n. (low ≤ n) × (n ≤ high)) }
{
    match u64::try_from(number) {
        Ok(n) if low <= n && n <= high => Some(n),
        _ => None,
    }
}

fn whole_in(low: u64, high: u64, position: Position, value: &Value) -> Result<u64, JobError>
    ensures is { Gives (λ n. n) result (whole_in low high position (view value.now)) }
    ensures range { IfOk result (λ n. (low ≤ n) × (n ≤ high)) }
{
    let number = value
        .as_integer()
        .ok_or(position.fault(JobRule::WrongKind))?;
    natural_in(low, high, number).ok_or(position.fault(JobRule::OutOfRange))
}

impl Section<'_> {
    /// The whole number of a required key, in a range.
    #[tactic(auto, unfolding(crate::specs::Keys::whole))]
    pub fn whole(&self, key: &str, low: u64, high: u64) -> Result<u64, JobError>
        ensures is { Gives (λ n. n) result (whole key.now low high (entries_of self.now)) }
        ensures range { IfOk result (λ n. (low ≤ n) × (n ≤ high)) }
    {
        let value = self.required(key)?;
        whole_in(low, high, self.position, value)
    }

    /// The whole number of a key, or `absent` where the key is not there.
    #[tactic(auto, unfolding(crate::specs::Keys::whole_or))]
    pub fn whole_or(&self, key: &str, low: u64, high: u64, absent: u64) -> Result<u64, JobError>
        requires low { low ≤ absent }
        requires high { absent ≤ high }
        ensures is { Gives (λ n. n) result
            (whole_or key.now low high absent (entries_of self.now)) }
        ensures range { IfOk result (λ n. (low ≤ n) × (n ≤ high)) }
    {
        match self.get(key) {
            None => Ok(absent),
            Some(value) => whole_in(low, high, self.position, value),
        }
    }

    /// The whole number of a key, if the key is there.
    #[tactic(auto, unfolding(crate::specs::Keys::whole_if_any))]
    pub fn whole_if_any(&self, key: &str, low: u64, high: u64) -> Result<Option<u64>, JobError>
        ensures is { Gives (λ n. n) result (whole_if_any key.now low high (entries_of self.now)) }
        ensures range { IfOk result (λ o. IfSome o (λ n. (low ≤ n) × (n ≤ high))) }
    {
        match self.get(key) {
            None => Ok(None),
            Some(value) => {
                let number = whole_in(low, high, self.position, value)?;
                Ok(Some(number))
            }
        }
    }

    /// The text of a required key, which must be a name.
    #[tactic(auto, unfolding(crate::specs::Keys::name))]
    pub fn name(&self, alloc: Global, key: &str) -> Result<Text, JobError>
        ensures is { Gives (λ t. t) result (name key.now (entries_of self.now)) }
        ensures range { IfOk result (λ t. is_name t ≡ true) }
    {
        let value = self.required(key)?;
        let text = value
            .as_str()
            .ok_or(self.position.fault(JobRule::WrongKind))?;
        if is_name(text.as_bytes()) {
            Ok(Text::of(String::from_str(alloc, text)?))
        } else {
            Err(self.position.fault(JobRule::OutOfRange))
        }
    }

    /// The text of a required key, which must be able to name a file.
    #[tactic(auto, unfolding(crate::specs::Keys::file_text))]
    pub fn file_text(&self, alloc: Global, key: &str) -> Result<Text, JobError>
        ensures is { Gives (λ t. t) result (file_text key.now (entries_of self.now)) }
        ensures range { IfOk result (λ t. is_file_text t ≡ true) }
    {
        let value = self.required(key)?;
        let text = value
            .as_str()
            .ok_or(self.position.fault(JobRule::WrongKind))?;
        if is_file_text(text) {
            Ok(Text::of(String::from_str(alloc, text)?))
        } else {
            Err(self.position.fault(JobRule::OutOfRange))
        }
    }
}
