ghost use Rattle.std.specs.Prelude.{◌≡◌, None};
ghost use Rattle.run_core.specs.Judging.{file_view};

use crate::file_name::FileName;
use crate::statuses::Conclusion;
use box_core::Cert;

/// A certificate, and the name of the file that is to hold it.
#[derive(Drop)]
pub struct Written<'a> {
    pub name: FileName<'a>,
    pub cert: Cert,
}

/// What a command reports: how it ends, the text for the sink, and the file that it writes, if it
/// writes one.
#[derive(Drop)]
pub struct Report<'a> {
    pub conclusion: Conclusion,
    pub text: Vec<u8>,
    pub written: Option<Written<'a>>,
}

/// A report with no verdict and no file.
pub fn plain_report<'a>(text: Vec<u8>) -> Report<'a>
    ensures conclusion { result.conclusion ≡ Conclusion.NoVerdict }
    ensures text { result.text ≡ text }
    ensures written { file_view result.written ≡ None }
{
    Report {
        conclusion: Conclusion::NoVerdict,
        text,
        written: None,
    }
}
