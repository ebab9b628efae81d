//! `show`: the report of one recipe of a job.

ghost use Rattle.std.specs.Prelude.{◌≡◌, IfOk, map, None, option_map, string_bytes};
ghost use Rattle.price_grid.specs.Grid.{IsRecipe};
ghost use Rattle.run_core.specs.Asking.{reports_on};
ghost use Rattle.dye_run.specs.Jobs.{reads_job};
ghost use Rattle.run_core.specs.Judging.{Gives};
ghost use Rattle.dye_run.specs.Show.{recipe_from, show_report, show_rule, show_words};
ghost use Rattle.dye_run.specs.Views.{show_view};

use crate::jobs::read_job;
use crate::recipes::shown_of;
use crate::words::names_job;
use job_file::BatchRule;
use price_grid::{Steps, admits, read_steps};
use recipe_judge::RecipeLand;
use run_core::{Conclusion, Inquiry, Report, Stop};
use shade_report::{Refusal, show_text};
use shelf_io::Shelf;
use std::alloc::Global;

/// The words JOB STEPS.
#[derive(Clone, Copy)]
pub(crate) struct Show<'a> {
    job: &'a str,
    steps: &'a str,
}

impl Show<'_> {
    pub(crate) fn of_words(words: &[String]) -> Option<Show<'_>>
        ensures { option_map show_view result ≡ show_words (map string_bytes words.now) }
    {
        match words {
            [job, steps] if names_job(job.as_str()) => Some(Show {
                job: job.as_str(),
                steps: steps.as_str(),
            }),
            _ => None,
        }
    }
}

/// The recipe that a word spells, where it is one of the grid and keeps the limits.
#[tactic(auto, unfolding(crate::specs::Show::recipe_from))]
fn recipe_from<'a>(land: &RecipeLand, word: &'a str) -> Result<Steps, Stop<'a>>
    ensures is { Gives (λ s. s.items) result (recipe_from land.now word.now) }
    ensures recipe { IfOk result (λ s. IsRecipe land.now.grid s.items) }
{
    let Some(steps) = read_steps(land.grid(), word.as_bytes()) else {
        return Err(Stop::Refused(Refusal::Steps(None)));
    };
    match admits(land.grid(), land.limits(), &steps) {
        Ok(()) => Ok(steps),
        Err(limit) => Err(Stop::Refused(Refusal::Steps(Some(limit)))),
    }
}

impl<'a> Inquiry<'a> for Show<'a> {
    type Input = RecipeLand;

    ghost asking = { λ c. reports_on (reads_job show_rule c.job.now None)
        (λ read. show_report (show_view c) read.job) };

    ghost judged = { λ c land. show_report (show_view c) land };

    fn read<H: Shelf>(self, alloc: Global, shelf: &mut H) -> Result<RecipeLand, Stop<'a>> {
        let read = read_job(alloc, shelf, BatchRule::Either, self.job, None)?;
        Ok(RecipeLand::of_job(alloc, read.resolved)?)
    }

    #[tactic(auto, unfolding(crate::specs::Show::show_report))]
    fn report(self, alloc: Global, land: &RecipeLand) -> Result<Report<'a>, Stop<'a>> {
        let steps = recipe_from(land, self.steps)?;
        let shown = shown_of(land, steps);
        let text = show_text(alloc, land.job(), &shown)?;
        Ok(Report {
            conclusion: Conclusion::Judged(shown.whole),
            text,
            written: None,
        })
    }
}
