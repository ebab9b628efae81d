//! A generated job, as the texts of its files.

ghost use Rattle.std.specs.Prelude.{◌≡◌, ℕ, IfOk, Some};
ghost use Rattle.job_file.specs.Job.{tree_of};
ghost use Rattle.demo_jobs.specs.Accepted.{IsAccepted};
ghost use Rattle.demo_jobs.specs.CurveText.{curve_text, job_book};
ghost use Rattle.demo_jobs.specs.Draws.{draws};
ghost use Rattle.demo_jobs.specs.Dyes.{drawn_dyes};
ghost use Rattle.demo_jobs.specs.JobTable.{job_table};
ghost use Rattle.demo_jobs.specs.WeightsText.{weights_text};
ghost use Rattle.demo_jobs.specs.declared.weights.Light.TheVariants.{First, Second};

use crate::book::job_book;
use crate::curve_file::curve_text;
use crate::draws::draws;
use crate::dyes::drawn_dyes;
use crate::job_table::job_text;
use crate::laws;
use crate::weights::Light;
use crate::weights_file::weights_text;
use std::alloc::{AllocError, Global};
use std::marker::Model;

/// A text. Contracts see it as the list of its bytes.
#[derive(Debug, Drop)]
pub struct Bytes {
    list: Vec<u8>,
}

impl Model for Bytes {
    ghost use Rattle.std.specs.Prelude.{ℕ, List};

    ghost Value = { List ℕ };

    ghost view = { λ b. b.list.items };
}

impl Bytes {
    /// The text of these bytes.
    pub fn of(list: Vec<u8>) -> Bytes
        ensures { result ≡ list.items }
    {
        Bytes { list }
    }

    /// The bytes.
    pub fn as_slice(&self) -> &[u8]
        ensures { result.now ≡ self.now }
    {
        self.list.as_slice()
    }
}

/// A generated job: its text, and the texts of the files that it names.
#[derive(Debug, Drop)]
pub struct Demo {
    /// The job, in TOML.
    pub job: Bytes,
    /// The curve file, `demo.csv`.
    pub curves: Bytes,
    /// The weights of the first light, `demo1.csv`.
    pub first: Bytes,
    /// The weights of the second light, `demo2.csv`.
    pub second: Bytes,
}

/// Makes the job with a number. The contract says which table the job's text reads as, and gives
/// every byte of the other three texts. The readers accept all four texts, and `resolve` accepts
/// the job.
pub fn make(alloc: Global, number: u32) -> Result<Demo, AllocError>
    ensures job { IfOk result (λ d. tree_of d.job ≡ Some (job_table (drawn_dyes (draws number)))) }
    ensures curves { IfOk result (λ d. d.curves ≡ curve_text (job_book (draws number))) }
    ensures first { IfOk result (λ d. d.first ≡ weights_text First) }
    ensures second { IfOk result (λ d. d.second ≡ weights_text Second) }
    ensures accepted { IfOk result
        (λ d. IsAccepted (draws number) d.job d.curves d.first d.second) }
{
    laws::accepted();
    let draws = draws(number);
    let book = job_book(alloc, draws.as_slice())?;
    let job = job_text(alloc, drawn_dyes(draws.as_slice()).as_slice())?;
    Ok(Demo {
        job: Bytes::of(job.into_bytes()),
        curves: Bytes::of(curve_text(alloc, &book)?),
        first: Bytes::of(weights_text(alloc, Light::First)?),
        second: Bytes::of(weights_text(alloc, Light::Second)?),
    })
}
