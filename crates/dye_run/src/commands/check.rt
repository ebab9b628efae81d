//! `check`: whether a certificate is valid for a job.

ghost use Rattle.std.specs.Prelude.{◌≡◌, ◌≤◌, length, Some};
ghost use Rattle.box_cert.specs.Spelling.{content};
ghost use Rattle.recipe_judge.specs.Recipes.{recipe_land};
ghost use Rattle.dye_run.specs.Check.{cert_from, check_report, check_rule, valid_from};
ghost use Rattle.run_core.specs.Asking.{reports_on};
ghost use Rattle.dye_run.specs.Jobs.{due_cert, reads_job};
ghost use Rattle.run_core.specs.Judging.{Gives};
ghost use Rattle.box_cert.specs.declared.read.TheConstants.{CERT_LIMIT};

use crate::cert_words::CertWords;
use crate::jobs::{JobRead, read_job};
use crate::recipes::budget_of;
use box_cert::{CERT_LIMIT, CertError, read_cert};
use box_core::{Cert, Checked, Evals, Landscape};
use cert_check::check;
use job_file::BatchRule;
use recipe_judge::RecipeLand;
use run_core::{DueFile, Inquiry, Report, Stop, plain_report};
use shade_report::{Refusal, accepted_text};
use shelf_io::Shelf;
use std::alloc::Global;

/// The words JOB CERT.
#[derive(Clone, Copy)]
pub(crate) struct Check<'a>(pub CertWords<'a>);

/// The recipes of a job, and the text of a certificate.
#[derive(Drop)]
pub(crate) struct CertInput {
    land: RecipeLand,
    text: Vec<u8>,
    ghost short: { length text.items ≤ CERT_LIMIT },
}

/// The certificate that a text spells.
#[tactic(auto, unfolding(crate::specs::Check::cert_from))]
fn cert_from<'a>(alloc: Global, land: &RecipeLand, text: &[u8]) -> Result<Cert, Stop<'a>>
    requires { length text.now ≤ CERT_LIMIT }
    ensures { Gives content result
        (cert_from (length (recipe_land land.now).top.lo) text.now) }
{
    let _ = land.top(); // called only for its contract: there are 1 to 12 dyes
    match read_cert(alloc, text, land.dims()) {
        Ok(cert) => Ok(cert),
        Err(CertError::Fault(fault)) => Err(Stop::Refused(Refusal::CertGrammar(fault))),
        Err(CertError::Memory) => Err(Stop::Memory),
    }
}

/// The same certificate, where it is valid for the recipes of a job.
#[tactic(auto, unfolding(crate::specs::Check::valid_from))]
pub(crate) fn valid_from<'a>(alloc: Global, land: &RecipeLand, cert: Cert) -> Result<Cert, Stop<'a>>
    ensures { Gives content result (valid_from land.now (content cert)) }
{
    let mut meter = Evals::default();
    match check(alloc, land, &cert, &mut meter)? {
        Checked::Accepted => Ok(cert),
        Checked::Refused { line, why } => Err(Stop::Refused(Refusal::CertWrong(line, why))),
    }
}

impl<'a> Inquiry<'a> for Check<'a> {
    type Input = CertInput;

    ghost asking = { λ c.
        reports_on (reads_job check_rule c.0.job.now (Some (due_cert c.0.cert.text.now)))
        (λ read. check_report read.job read.text) };

    ghost judged = { λ c input. check_report input.land input.text.items };

    fn read<H: Shelf>(self, alloc: Global, shelf: &mut H) -> Result<CertInput, Stop<'a>> {
        let Check(words) = self;
        let cert = DueFile {
            name: words.cert.text,
            limit: CERT_LIMIT,
        };
        let read = read_job(alloc, shelf, BatchRule::Either, words.job, Some(cert))?;
        let JobRead { resolved, text } = read;
        let land = RecipeLand::of_job(alloc, resolved)?;
        Ok(CertInput { land, text })
    }

    #[tactic(auto, unfolding(crate::specs::Check::check_report))]
    fn report(self, alloc: Global, input: &CertInput) -> Result<Report<'a>, Stop<'a>> {
        let cert = cert_from(alloc, &input.land, input.text.as_slice())?;
        let valid = valid_from(alloc, &input.land, cert)?;
        // called only for its contract: the recipes of the job can be searched
        let _ = budget_of(&input.land);
        let mut text = Vec::new(alloc);
        text.extend_from_slice(accepted_text(&valid.claim).as_bytes())?;
        Ok(plain_report(text))
    }
}
