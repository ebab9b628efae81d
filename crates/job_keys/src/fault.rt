//! Why a job is refused, and where.

ghost use Rattle.std.specs.Prelude.{◌≡◌, Err};
ghost use Rattle.job_keys.specs.Faults.{Gives, ensure, fault_at};

use std::alloc::AllocError;
use thiserror::Error;

/// A part of a job.
#[derive(Clone, Copy, Debug, PartialEq, Eq)]
pub enum Part {
    /// The table of the whole document.
    Job,
    /// A light.
    Light,
    /// A dye.
    Dye,
    /// A dyeing of a dye.
    Dyeing,
    /// A pair of dyes that may not be used together.
    Pair,
    /// The batch that is to be corrected.
    Batch,
}

/// A rule that a job breaks.
#[derive(Clone, Copy, Debug, PartialEq, Eq)]
pub enum JobRule {
    /// The bytes are no TOML document.
    NotToml,
    /// The version is absent, or is not the whole number 1.
    NotVersion1,
    /// A key that this part does not have.
    UnknownKey,
    /// A required key other than `version` is absent.
    MissingKey,
    /// A value of the wrong type.
    WrongKind,
    /// A number or a text out of its range.
    OutOfRange,
    /// An array with too few or too many items.
    BadCount,
    /// An earlier dye has the same name.
    DoubleDye,
    /// A pair names a dye that the job does not have.
    UnknownDye,
    /// A pair names one dye twice.
    SamePair,
    /// The batch does not have exactly one number of steps for each dye.
    BatchLength,
    /// The most steps of a dye weigh more than 20,000 units.
    TooWide,
    /// The curve file has no such curve.
    UnknownColumn,
    /// At some wavelength the K/S of the cloth with all dyes at their most steps has an upper end
    /// above 1,000,000. The cloth is the batch where there is one, and else the substrate.
    TooStrong,
}

/// The first fault of a job. Items count from 1: `item` is the number of a light, a dye or a pair,
/// `sub` that of a dyeing of the dye `item`; else they are 0.
#[derive(Clone, Copy, Debug, PartialEq, Eq)]
pub struct JobFault {
    pub part: Part,
    pub item: u32,
    pub sub: u32,
    pub rule: JobRule,
}

/// Why a job was not read, or was not resolved.
#[derive(Debug, Drop, Error)]
pub enum JobError {
    /// The first fault of the job.
    #[error("the job breaks a rule")]
    Fault(JobFault),
    /// Memory ran out.
    #[error("out of memory")]
    Memory,
}

impl From<AllocError> for JobError {
    ghost use Rattle.job_keys.specs.declared.fault.JobError.TheVariants.{Memory};

    ghost from_gives = { λ _ e. e ≡ Memory };

    fn from(_e: AllocError) -> JobError {
        JobError::Memory
    }
}

/// The position of a table in a job.
#[derive(Clone, Copy, Debug, PartialEq, Eq)]
pub struct Position {
    pub part: Part,
    pub item: u32,
    pub sub: u32,
}

impl Position {
    /// The fault of a rule that is broken at this position.
    pub fn fault(self, rule: JobRule) -> JobError
        ensures { result ≡ JobError.Fault (fault_at self rule) }
    {
        JobError::Fault(JobFault {
            part: self.part,
            item: self.item,
            sub: self.sub,
            rule,
        })
    }

    /// Checks that a rule holds at this position.
    pub fn ensure(self, holds: bool, rule: JobRule) -> Result<(), JobError>
        ensures { Gives (λ x. x) result (ensure self rule holds) }
    {
        if holds { Ok(()) } else { Err(self.fault(rule)) }
    }
}
