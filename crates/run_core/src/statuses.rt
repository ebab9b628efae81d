//! The statuses that `run` returns, each once.

ghost use Rattle.std.specs.Prelude.{◌≡◌};
ghost use Rattle.run_core.specs.Outcome.{conclusion_status, refusal_outcome, status_of};

use metamerism::Verdict;
use shade_report::Refusal;

/// How a report ends.
#[derive(Clone, Copy)]
pub enum Conclusion {
    /// It has no verdict.
    NoVerdict,
    /// It has this verdict.
    Judged(Verdict),
    /// A recipe was found.
    Found,
    /// No recipe keeps the limits and passes.
    NoneFound,
    /// The budget of boxes was used up first.
    BudgetEnded,
}

/// The status where a put into the sink failed, or a file could not be written.
pub const NOT_WRITTEN: u8 = 4;

/// The status where memory ran out.
pub const OUT_OF_MEMORY: u8 = 10;

/// The status of a report.
pub fn conclusion_status(conclusion: Conclusion) -> u8
    ensures { result ≡ conclusion_status conclusion }
{
    match conclusion {
        Conclusion::NoVerdict | Conclusion::Judged(Verdict::Pass) | Conclusion::Found => 0,
        Conclusion::NoneFound => 5,
        Conclusion::BudgetEnded => 6,
        Conclusion::Judged(Verdict::Fail(_)) => 8,
        Conclusion::Judged(Verdict::Undecided) => 9,
    }
}

/// The status of a refusal.
pub fn refusal_status(refusal: &Refusal) -> u8
    ensures { result ≡ status_of (refusal_outcome refusal.now) }
{
    match *refusal {
        Refusal::Usage => 1,
        Refusal::Unreadable(_) => 2,
        Refusal::TooLong(_) | Refusal::Table(..) | Refusal::Job(..) | Refusal::NoColumn(..) => 3,
        Refusal::NotWritten(_) => NOT_WRITTEN,
        Refusal::CertGrammar(_) | Refusal::CertWrong(..) => 7,
        Refusal::Steps(_) => 11,
    }
}
