//! The laws. A call does nothing; what it ensures is the law.

ghost use Rattle.job_laws.specs.Laws.{AcceptsEither, BudgetFits, FilesAreNoCerts, TableAcceptsEither};

/// A job that is accepted by at least one rule for its batch is also accepted, with the same
/// values, by the rule that a batch may be there or not.
pub fn batch_rule()
    ensures text { AcceptsEither }
    ensures table { TableAcceptsEither }
{}

/// No name of a file in an accepted job ends with `.cert`.
pub fn files()
    ensures { FilesAreNoCerts }
{}

/// The budget of an accepted job is 1 to 1,000,000 boxes.
pub fn budget()
    ensures { BudgetFits }
{}
