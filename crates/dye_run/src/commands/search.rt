//! `predict` and `correct`: the first recipe of a job that keeps the limits and passes, with the
//! certificate that shows it.

ghost use Rattle.std.specs.Prelude.{◌≡◌, All, IfOk, IfSome, map, None, option_map};
ghost use Rattle.box_search.specs.Result.{outcome_view};
ghost use Rattle.price_grid.specs.Grid.{IsRecipe};
ghost use Rattle.shade_report.specs.Outcomes as texts;
ghost use Rattle.shade_report.specs.Recipes.{shown_view};
ghost use Rattle.run_core.specs.Endings.{IsSearchable};
ghost use Rattle.run_core.specs.Asking.{reports_on};
ghost use Rattle.dye_run.specs.Jobs.{reads_job};
ghost use Rattle.dye_run.specs.Search.{claimed_recipe, conclusion_of, matched_values, result_for, search_report};
ghost use Rattle.dye_run.specs.Show.{recipe_values};

use crate::cert_words::CertWords;
use crate::jobs::read_job;
use crate::recipes::{budget_of, shown_of};
use box_core::{Claim, Evals};
use box_search::{Outcome, search};
use job_file::BatchRule;
use price_grid::{Steps, copy_of};
use recipe_judge::RecipeLand;
use run_core::{Conclusion, Inquiry, Report, Stop, Written};
use shade_report::{Shown, outcome_text};
use shelf_io::Shelf;
use std::alloc::{AllocError, Global};

/// A search among the recipes of a job. By the rule the job must have a batch (to correct), or must
/// not have one (to predict).
#[derive(Clone, Copy)]
pub(crate) struct Search<'a>(pub CertWords<'a>, pub BatchRule);

pub(crate) fn conclusion_of(claim: &Claim) -> Conclusion
    ensures { result ≡ conclusion_of claim.now }
{
    match claim {
        Claim::Match(_) => Conclusion::Found,
        Claim::NoMatch => Conclusion::NoneFound,
        Claim::Floor(_) => Conclusion::BudgetEnded,
    }
}

/// Searches among the recipes of a job, within its budget.
pub(crate) fn search_land(alloc: Global, land: &RecipeLand) -> Result<Outcome, AllocError>
    ensures is { IfOk result (λ o. outcome_view o ≡ result_for land.now) }
    ensures searchable { IsSearchable land.now }
    ensures claimed { IfOk result (λ o. IfSome (claimed_recipe o.cert.claim)
        (IsRecipe land.now.grid)) }
    ensures listed { IfOk result (λ o. All (IsRecipe land.now.grid) o.cert.undecided) }
{
    let mut meter = Evals::default();
    search(alloc, land, budget_of(land), &mut meter)
}

/// The values shown of the recipe of a match.
fn shown_match(land: &RecipeLand, claim: &Claim) -> Option<Shown>
    requires { IfSome (claimed_recipe claim.now) (IsRecipe land.now.grid) }
    ensures { option_map shown_view result ≡ matched_values land.now claim.now }
{
    match claim {
        Claim::Match(steps) => Some(shown_of(land, copy_of(steps))),
        Claim::NoMatch => None,
        Claim::Floor(_) => None,
    }
}

/// The values shown of each of these recipes.
fn shown_each(alloc: Global, land: &RecipeLand, recipes: &[Steps]) -> Result<Vec<Shown>, AllocError>
    requires { All (λ s. IsRecipe land.now.grid s.items) recipes.now }
    ensures { IfOk result (λ each. map shown_view each.items
        ≡ map (λ s. recipe_values land.now s.items) recipes.now) }
{
    let mut each = Vec::new(alloc);
    for steps in recipes {
        each.push(shown_of(land, copy_of(steps)))?;
    }
    Ok(each)
}

/// The text about the result of a search.
fn result_text(alloc: Global, land: &RecipeLand, found: &Outcome) -> Result<Vec<u8>, AllocError>
    requires claimed { IfSome (claimed_recipe found.now.cert.claim) (IsRecipe land.now.grid) }
    requires listed { All (IsRecipe land.now.grid) found.now.cert.undecided }
    ensures { IfOk result (λ text. text.items ≡ texts.outcome_text land.now.job
        found.now.cert.claim found.now.boxes (matched_values land.now found.now.cert.claim)
        (map (recipe_values land.now) found.now.cert.undecided)) }
{
    let claim = &found.cert.claim;
    let matched = shown_match(land, claim);
    let undecided = shown_each(alloc, land, found.cert.undecided.as_slice())?;
    outcome_text(
        alloc,
        land.job(),
        claim,
        found.boxes,
        matched.as_ref(),
        undecided.as_slice(),
    )
}

impl<'a> Inquiry<'a> for Search<'a> {
    type Input = RecipeLand;

    ghost asking = { λ c. reports_on (reads_job c.1 c.0.job.now None)
        (λ read. search_report c.0.cert.text.now read.job) };

    ghost judged = { λ c land. search_report c.0.cert.text.now land };

    fn read<H: Shelf>(self, alloc: Global, shelf: &mut H) -> Result<RecipeLand, Stop<'a>> {
        let Search(words, rule) = self;
        let read = read_job(alloc, shelf, rule, words.job, None)?;
        Ok(RecipeLand::of_job(alloc, read.resolved)?)
    }

    #[tactic(auto, unfolding(crate::specs::Search::search_report))]
    fn report(self, alloc: Global, land: &RecipeLand) -> Result<Report<'a>, Stop<'a>> {
        let Search(words, _) = self;
        let found = search_land(alloc, land)?;
        let text = result_text(alloc, land, &found)?;
        let conclusion = conclusion_of(&found.cert.claim);
        let written = Written {
            name: words.cert,
            cert: found.cert,
        };
        Ok(Report {
            conclusion,
            text,
            written: Some(written),
        })
    }
}
