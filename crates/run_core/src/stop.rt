//! Why a command has no report.

ghost use Rattle.std.specs.Prelude.{◌≡◌, ◌⊎◌, IfOk, None, option_map};
ghost use Rattle.run_core.specs.Judging.{owned_outcome, stop_outcome};
ghost use Rattle.run_core.specs.Outcome.{refusal_outcome};

use box_core::{CertFault, Why};
use job_file::{JobFault, Text};
use price_grid::LimitNo;
use shade_report::Refusal;
use spectral_tables::TableFault;
use std::alloc::{AllocError, AllocFailed, Global};

/// A refusal that owns its texts, so that it can outlive the job that some of them are part of.
#[derive(Drop)]
pub enum OwnedRefusal {
    Usage,
    Unreadable(Text),
    TooLong(Text),
    Table(Text, TableFault),
    Job(Text, JobFault),
    NoColumn(Text, Text),
    Steps(Option<LimitNo>),
    CertGrammar(CertFault),
    CertWrong(u32, Why),
    NotWritten(Text),
}

fn copy_of(alloc: Global, text: &str) -> Result<Text, AllocError>
    ensures { IfOk result (λ copy. copy ≡ text.now) }
{
    Ok(Text::of(String::from_str(alloc, text)?))
}

impl OwnedRefusal {
    /// A copy of a refusal.
    fn of(alloc: Global, refusal: &Refusal) -> Result<OwnedRefusal, AllocError>
        ensures { IfOk result (λ owned. owned_outcome owned ≡ refusal_outcome refusal.now) }
    {
        Ok(match *refusal {
            Refusal::Usage => OwnedRefusal::Usage,
            Refusal::Unreadable(name) => OwnedRefusal::Unreadable(copy_of(alloc, name)?),
            Refusal::TooLong(name) => OwnedRefusal::TooLong(copy_of(alloc, name)?),
            Refusal::Table(name, fault) => OwnedRefusal::Table(copy_of(alloc, name)?, fault),
            Refusal::Job(name, fault) => OwnedRefusal::Job(copy_of(alloc, name)?, fault),
            Refusal::NoColumn(name, column) => {
                OwnedRefusal::NoColumn(copy_of(alloc, name)?, copy_of(alloc, column)?)
            }
            Refusal::Steps(limit) => OwnedRefusal::Steps(limit),
            Refusal::CertGrammar(fault) => OwnedRefusal::CertGrammar(fault),
            Refusal::CertWrong(line, why) => OwnedRefusal::CertWrong(line, why),
            Refusal::NotWritten(name) => OwnedRefusal::NotWritten(copy_of(alloc, name)?),
        })
    }

    /// The refusal, with its names borrowed.
    fn refusal(&self) -> Refusal<'_>
        ensures { refusal_outcome result ≡ owned_outcome self.now }
    {
        match self {
            OwnedRefusal::Usage => Refusal::Usage,
            OwnedRefusal::Unreadable(name) => Refusal::Unreadable(name.as_str()),
            OwnedRefusal::TooLong(name) => Refusal::TooLong(name.as_str()),
            OwnedRefusal::Table(name, fault) => Refusal::Table(name.as_str(), *fault),
            OwnedRefusal::Job(name, fault) => Refusal::Job(name.as_str(), *fault),
            OwnedRefusal::NoColumn(name, column) => {
                Refusal::NoColumn(name.as_str(), column.as_str())
            }
            OwnedRefusal::Steps(limit) => Refusal::Steps(*limit),
            OwnedRefusal::CertGrammar(fault) => Refusal::CertGrammar(*fault),
            OwnedRefusal::CertWrong(line, why) => Refusal::CertWrong(*line, *why),
            OwnedRefusal::NotWritten(name) => Refusal::NotWritten(name.as_str()),
        }
    }
}

/// Why a command has no report.
#[derive(Drop)]
pub enum Stop<'a> {
    /// A refusal whose names are borrowed: from the words, or from a job that is still in memory.
    Refused(Refusal<'a>),
    /// A refusal that owns its names: of a table or a certificate that is due after a job.
    Owned(OwnedRefusal),
    /// Memory ran out.
    Memory,
}

impl Stop<'_> {
    /// The refusal, unless memory ran out.
    pub fn refusal(&self) -> Option<Refusal<'_>>
        ensures { option_map refusal_outcome result ≡ stop_outcome self.now }
    {
        match self {
            Stop::Refused(refusal) => Some(*refusal),
            Stop::Owned(refusal) => Some(refusal.refusal()),
            Stop::Memory => None,
        }
    }

    /// The same refusal with copies of its names, so that it can outlive the job that they are part
    /// of; or `Memory`, where there is no memory for the copies.
    pub fn owned<'a>(self, alloc: Global) -> Stop<'a>
        ensures { (stop_outcome result ≡ stop_outcome self.entry) ⊎ (stop_outcome result ≡ None) }
    {
        match self.refusal() {
            Some(refusal) => match OwnedRefusal::of(alloc, &refusal) {
                Ok(owned) => Stop::Owned(owned),
                Err(AllocError) => Stop::Memory,
            },
            None => Stop::Memory,
        }
    }
}

impl From<AllocError> for Stop<'_> {
    ghost use Rattle.run_core.specs.declared.stop.Stop.TheVariants.{Memory};

    ghost from_gives = { λ _ e. e ≡ Memory };

    fn from(_e: AllocError) -> Self {
        Stop::Memory
    }
}

impl<T: Drop> From<AllocFailed<T>> for Stop<'_> {
    ghost use Rattle.run_core.specs.declared.stop.Stop.TheVariants.{Memory};

    ghost from_gives = { λ _ e. e ≡ Memory };

    fn from(_e: AllocFailed<T>) -> Self {
        Stop::Memory
    }
}
