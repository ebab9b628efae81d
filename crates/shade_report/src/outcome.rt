//! The report of a search.

ghost use Rattle.std.specs.Prelude.{◌≡◌, ◌++◌, IfOk, IfSome, OnOk, map, option_map};
ghost use Rattle.job_file.specs.JobView.{job_view};
ghost use Rattle.shade_report.specs.Outcomes.{GoesWith, commas_text, found_text, listed_text, outcome_text, undecided_text};
ghost use Rattle.shade_report.specs.Recipes.{FitsJob, shown_view};

use crate::claims::push_head;
use crate::lines::{push_count, push_line};
use crate::recipe::{push_lights, push_recipe};
use crate::shown::Shown;
use box_core::Claim;
use job_file::Job;
use std::alloc::{AllocError, Global};

/// Appends the recipe of a match, or the floor.
fn push_found(
    text: &mut Vec<u8>,
    job: &Job,
    claim: &Claim,
    matched: Option<&Shown>,
) -> Result<(), AllocError>
    requires given { GoesWith claim.now matched }
    requires fits { IfSome matched (λ m. FitsJob (job_view job.now) (shown_view m.now)) }
    ensures { OnOk result (text.new.items ≡ text.old.items
        ++ found_text (job_view job.now) claim.now
        (option_map (λ m. shown_view m.now) matched.entry)) }
{
    match claim {
        Claim::Match(_) => match matched {
            Some(shown) => push_recipe(text, job, shown),
            None => Ok(()),
        },
        Claim::NoMatch => Ok(()),
        Claim::Floor(cost) => push_line(text, "floor ", *cost),
    }
}

/// Appends numbers with commas between them.
fn push_commas(text: &mut Vec<u8>, numbers: &[u16]) -> Result<(), AllocError>
    ensures { OnOk result (text.new.items ≡ text.old.items ++ commas_text numbers.now) }
{
    let [first, more @ ..] = numbers else {
        return Ok(());
    };
    push_count(text, "", u64::from(*first))?;
    for number in more {
        push_count(text, ",", u64::from(*number))?;
    }
    Ok(())
}

/// Appends the lines of a listed recipe.
#[tactic(auto, unfolding(crate::specs::Outcomes::listed_text))]
fn push_listed(text: &mut Vec<u8>, shown: &Shown) -> Result<(), AllocError>
    ensures { OnOk result (text.new.items ≡ text.old.items ++ listed_text (shown_view shown.now)) }
{
    text.extend_from_slice(b"recipe ")?;
    push_commas(text, shown.steps.as_slice())?;
    push_line(text, " cost ", shown.cost)?;
    push_lights(text, shown.deltas.each.as_slice(), shown.each.as_slice())
}

/// Appends how many recipes are undecided, and the lines of each.
#[tactic(auto, unfolding(crate::specs::Outcomes::undecided_text))]
fn push_undecided(text: &mut Vec<u8>, undecided: &[Shown]) -> Result<(), AllocError>
    ensures { OnOk result (text.new.items ≡ text.old.items
        ++ undecided_text (map shown_view undecided.now)) }
{
    push_line(text, "undecided ", undecided.len() as u64)?;
    for shown in undecided {
        push_listed(text, shown)?;
    }
    Ok(())
}

/// The report of a search: what it found, how many boxes it judged, the recipe of a match or the
/// floor, and the undecided recipes with their differences.
#[tactic(auto, unfolding(crate::specs::Outcomes::outcome_text))]
pub fn outcome_text(
    alloc: Global,
    job: &Job,
    claim: &Claim,
    boxes: u32,
    matched: Option<&Shown>,
    undecided: &[Shown],
) -> Result<Vec<u8>, AllocError>
    requires given { GoesWith claim.now matched }
    requires fits { IfSome matched (λ m. FitsJob (job_view job.now) (shown_view m.now)) }
    ensures { IfOk result (λ text. text.items ≡ outcome_text (job_view job.now) claim.now boxes
        (option_map (λ m. shown_view m.now) matched.entry) (map shown_view undecided.now)) }
{
    let mut text = Vec::new(alloc);
    push_head(&mut text, claim, boxes)?;
    push_found(&mut text, job, claim, matched)?;
    push_undecided(&mut text, undecided)?;
    Ok(text)
}
