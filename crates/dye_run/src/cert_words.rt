//! The words of a command on a job and its certificate.

ghost use Rattle.std.specs.Prelude.{◌≡◌, map, option_map, string_bytes};
ghost use Rattle.dye_run.specs.Views.{cert_words_view};
ghost use Rattle.dye_run.specs.Words.{cert_words};

use crate::words::{names_cert, names_job};
use run_core::FileName;

/// The words JOB CERT: a job and a certificate.
#[derive(Clone, Copy)]
pub(crate) struct CertWords<'a> {
    pub job: &'a str,
    pub cert: FileName<'a>,
}

impl CertWords<'_> {
    pub(crate) fn of_words(words: &[String]) -> Option<CertWords<'_>>
        ensures { option_map cert_words_view result ≡ cert_words (map string_bytes words.now) }
    {
        match words {
            [job, cert] if names_job(job.as_str()) && names_cert(cert.as_str()) => Some(
                CertWords {
                    job: job.as_str(),
                    cert: FileName {
                        text: cert.as_str(),
                    },
                },
            ),
            _ => None,
        }
    }
}
