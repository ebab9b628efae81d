//! `demo`: a summary of the search among the recipes of a generated job.

ghost use Rattle.std.specs.Prelude.{◌≡◌, [], ◌∷◌, IfErr, IfOk, IfSome, None, map, option_map, string_bytes, Some};
ghost use Rattle.job_file.specs.ResolvedView.{resolved_view};
ghost use Rattle.price_grid.specs.Grid.{IsRecipe};
ghost use Rattle.dye_run.specs.Commands.{asking_of};
ghost use Rattle.dye_run.specs.Demo.{demo_job, demo_report, demo_words, matched_cost};
ghost use Rattle.dye_run.specs.Forms as form;
ghost use Rattle.run_core.specs.Judging.{stop_outcome};
ghost use Rattle.dye_run.specs.Search.{claimed_recipe};
ghost use Rattle.run_core.specs.Views.{bytes_view};

use crate::commands::check::valid_from;
use crate::commands::search::{conclusion_of, search_land};
use crate::jobs::{job_from, resolved_from, tables_of};
use crate::seed::Seed;
use crate::words::number_in;
use box_core::Claim;
use box_search::Outcome;
use demo_jobs::{Bytes, Demo as Texts, make};
use job_file::{BatchRule, Resolved};
use price_grid::cost;
use recipe_judge::RecipeLand;
use run_core::{Inquiry, Report, Stop};
use shade_report::demo_text;
use shelf_io::Shelf;
use std::alloc::{AllocError, Global};

/// The name that a refusal of a generated job would print. No generated job is ever refused.
const NAME: &str = "demo";

/// The word NUMBER.
#[derive(Clone, Copy)]
pub(crate) struct Demo(pub Seed);

impl Demo {
    pub(crate) fn of_words(words: &[String]) -> Option<Demo>
        ensures { option_map (λ d. d.0.number) result ≡ demo_words (map string_bytes words.now) }
    {
        match words {
            [word] => {
                let number = number_in(0, 999_999, word.as_str())?;
                Some(Demo(Seed { number }))
            }
            _ => None,
        }
    }
}

fn copy_of(alloc: Global, bytes: &Bytes) -> Result<Vec<u8>, AllocError>
    ensures { IfOk result (λ copy. copy.items ≡ bytes.now) }
{
    Ok(Vec::from_slice(alloc, bytes.as_slice())?)
}

/// The bytes of the table files of a generated job, as if they had been read.
fn generated_files(alloc: Global, texts: &Texts) -> Result<Vec<Option<Vec<u8>>>, AllocError>
    ensures { IfOk result (λ bytes_read. map bytes_view bytes_read.items
        ≡ Some texts.now.curves ∷ Some texts.now.first ∷ Some texts.now.second ∷ []) }
{
    let curves = copy_of(alloc, &texts.curves)?;
    let first = copy_of(alloc, &texts.first)?;
    let second = copy_of(alloc, &texts.second)?;
    let mut bytes_read = Vec::new(alloc);
    bytes_read.push(Some(curves))?;
    bytes_read.push(Some(first))?;
    bytes_read.push(Some(second))?;
    Ok(bytes_read)
}

/// The generated job with a number, resolved over its tables.
fn generated<'a>(alloc: Global, seed: Seed) -> Result<Resolved, Stop<'a>>
    ensures is { IfOk result (λ r. resolved_view r ≡ demo_job seed.number) }
    ensures memory { IfErr result (λ why. stop_outcome why ≡ None) }
{
    let texts = make(alloc, seed.number)?;
    let job = job_from(alloc, BatchRule::Without, NAME, Some(texts.job.as_slice()))?;
    let bytes_read = generated_files(alloc, &texts)?;
    let tables = match tables_of(alloc, &job, bytes_read.as_slice()) {
        Ok(tables) => tables,
        Err(stop) => return Err(stop.owned(alloc)),
    };
    resolved_from(alloc, NAME, job, tables)
}

/// The cost of the recipe of a match.
fn cost_of_match(land: &RecipeLand, claim: &Claim) -> Option<u64>
    requires { IfSome (claimed_recipe claim.now) (IsRecipe land.now.grid) }
    ensures { result ≡ matched_cost land.now claim.now }
{
    match claim {
        Claim::Match(steps) => Some(cost(land.grid(), steps)),
        Claim::NoMatch => None,
        Claim::Floor(_) => None,
    }
}

impl<'a> Inquiry<'a> for Demo {
    type Input = RecipeLand;

    ghost asking = { λ d. asking_of (form.demo d.0.number) };

    ghost judged = { λ d land. demo_report d.0.number land };

    fn read<H: Shelf>(self, alloc: Global, _shelf: &mut H) -> Result<RecipeLand, Stop<'a>> {
        let Demo(seed) = self;
        let resolved = generated(alloc, seed)?;
        Ok(RecipeLand::of_job(alloc, resolved)?)
    }

    #[tactic(auto, unfolding(crate::specs::Demo::demo_report))]
    fn report(self, alloc: Global, land: &RecipeLand) -> Result<Report<'a>, Stop<'a>> {
        let Demo(seed) = self;
        let found = search_land(alloc, land)?;
        let cost = cost_of_match(land, &found.cert.claim);
        let Outcome { cert, boxes } = found;
        let valid = valid_from(alloc, land, cert)?;
        let text = demo_text(alloc, seed.number, &valid, boxes, cost)?;
        Ok(Report {
            conclusion: conclusion_of(&valid.claim),
            text,
            written: None,
        })
    }
}
