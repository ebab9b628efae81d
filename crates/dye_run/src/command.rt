//! The commands, each with its words.

ghost use Rattle.std.specs.Prelude.{◌≡◌, map, option_map, string_bytes};
ghost use Rattle.dye_run.specs.Commands.{asking_of, plan_of};
ghost use Rattle.dye_run.specs.Forms.{form_of};
ghost use Rattle.run_core.specs.Judging.{IsJudged};
ghost use Rattle.run_core.specs.Reading.{ReadsDue};
ghost use Rattle.dye_run.specs.Views.{form_view};

use crate::cert_words::CertWords;
use crate::commands::check::Check;
use crate::commands::demo::Demo;
use crate::commands::diff::Diff;
use crate::commands::ks::Ks;
use crate::commands::lab::Lab;
use crate::commands::search::Search;
use crate::commands::show::Show;
use crate::commands::xyz::Xyz;
use crate::coordinates::ColumnReport;
use crate::words::LitColumn;
use job_file::BatchRule;
use run_core::{Planned, Report, Stop, inquire};
use shelf_io::Shelf;
use std::alloc::Global;

/// A command with its words.
#[derive(Clone, Copy)]
pub(crate) enum Command<'a> {
    Ks(Ks<'a>),
    Xyz(LitColumn<'a>),
    Lab(LitColumn<'a>),
    Diff(Diff<'a>),
    Show(Show<'a>),
    Predict(CertWords<'a>),
    Correct(CertWords<'a>),
    Check(CertWords<'a>),
    Demo(Demo),
}

/// The command that the words form, if they have one of the listed forms.
pub(crate) fn command_of(words: &[String]) -> Option<Command<'_>>
    ensures { option_map form_view result ≡ form_of (map string_bytes words.now) }
{
    let [name, rest @ ..] = words else {
        return None;
    };
    match name.as_str() {
        "ks" => Ks::of_words(rest).map(Command::Ks),
        "xyz" => LitColumn::of_words(rest).map(Command::Xyz),
        "lab" => LitColumn::of_words(rest).map(Command::Lab),
        "diff" => Diff::of_words(rest).map(Command::Diff),
        "show" => Show::of_words(rest).map(Command::Show),
        "predict" => CertWords::of_words(rest).map(Command::Predict),
        "correct" => CertWords::of_words(rest).map(Command::Correct),
        "check" => CertWords::of_words(rest).map(Command::Check),
        "demo" => match Demo::of_words(rest) {
            Some(words) => Some(Command::Demo(words)),
            None => None,
        },
        _ => None,
    }
}

// Reads the due files of a command, and makes the report on them.
fn report_by<'a, H: Shelf>(
    alloc: Global,
    shelf: &mut H,
    command: Command<'a>,
) -> Result<Report<'a>, Stop<'a>>
    ensures judged { IsJudged (asking_of (form_view command.entry))
        (H.view shelf.old) (H.view shelf.new) result }
    ensures reads { ReadsDue (asking_of (form_view command.entry))
        (H.view shelf.old) (H.view shelf.new) }
{
    match command {
        Command::Ks(words) => inquire(alloc, shelf, words),
        Command::Xyz(words) => inquire(alloc, shelf, ColumnReport(words, Xyz)),
        Command::Lab(words) => inquire(alloc, shelf, ColumnReport(words, Lab)),
        Command::Diff(words) => inquire(alloc, shelf, words),
        Command::Show(words) => inquire(alloc, shelf, words),
        Command::Predict(words) => inquire(alloc, shelf, Search(words, BatchRule::Without)),
        Command::Correct(words) => inquire(alloc, shelf, Search(words, BatchRule::With)),
        Command::Check(words) => inquire(alloc, shelf, Check(words)),
        Command::Demo(words) => inquire(alloc, shelf, words),
    }
}

impl<'a> Planned<'a> for Command<'a> {
    ghost plan = { λ c. plan_of (form_view c) };

    fn carry_out<H: Shelf>(self, alloc: Global, shelf: &mut H) -> Result<Report<'a>, Stop<'a>> {
        report_by(alloc, shelf, self)
    }
}
