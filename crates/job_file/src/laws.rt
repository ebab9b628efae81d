//! The laws of reading a job. A call does nothing; what it ensures is the law.
ghost use Rattle.job_file.specs.Laws.{AcceptsByRules, ReportsFirstBroken};

/// The law of the jobs that [`read_job`](crate::read_job) accepts: every rule holds, and the values
/// are those of the keys.
pub fn acceptance()
    ensures { AcceptsByRules }
{}

/// The law of the fault that [`read_job`](crate::read_job) reports: a rule with that fault is
/// broken, and every rule before it holds.
pub fn first_fault()
    ensures { ReportsFirstBroken }
{}
