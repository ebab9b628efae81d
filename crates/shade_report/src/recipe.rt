//! The text of one recipe.

ghost use Rattle.std.specs.Prelude.{◌≡◌, ◌≤◌, ◌++◌, All, IfOk, OnOk, length};
ghost use Rattle.job_file.specs.Dye.{IsDye};
ghost use Rattle.job_file.specs.JobView.{job_view};
ghost use Rattle.shade_report.specs.Recipes.{FitsJob, dye_text, dyes_text, light_text, lights_text, recipe_text, show_text, shown_view, verdict_name};

use crate::lines::{push_count, push_ends, push_fixed};
use crate::shown::Shown;
use fix_bounds::{Base, Iv};
use job_file::{Job, JobDye};
use metamerism::Verdict;
use std::alloc::{AllocError, Global};

/// The word of a verdict.
pub fn verdict_name(verdict: Verdict) -> &'static str
    ensures { result.now ≡ verdict_name verdict }
{
    match verdict {
        Verdict::Pass => "pass",
        Verdict::Fail(_) => "fail",
        Verdict::Undecided => "undecided",
    }
}

/// Appends the line of a dye with its number of steps, for a load in kilograms.
#[tactic(auto, unfolding(crate::specs::Recipes::dye_text))]
fn push_dye(text: &mut Vec<u8>, dye: &JobDye, steps: u16, load: u32) -> Result<(), AllocError>
    requires step { dye.now.step ≤ 20000 }
    requires load { load ≤ 100000 }
    ensures { OnOk result (text.new.items ≡ text.old.items ++ dye_text load dye.now steps) }
{
    let units = u64::from(steps) * u64::from(dye.step);
    text.extend_from_slice(b"dye ")?;
    text.extend_from_slice(dye.name.as_str().as_bytes())?;
    push_count(text, " steps ", u64::from(steps))?;
    push_fixed(text, " percent ", units, 3)?;
    push_fixed(text, " grams ", units * u64::from(load), 2)?;
    text.push(b'\n')?;
    Ok(())
}

/// Appends the line of the light with a number: the difference, and the verdict on it.
#[tactic(auto, unfolding(crate::specs::Recipes::light_text))]
fn push_light(
    text: &mut Vec<u8>,
    number: u64,
    delta: Iv<Base>,
    verdict: Verdict,
) -> Result<(), AllocError>
    ensures { OnOk result (text.new.items ≡ text.old.items ++ light_text number delta verdict) }
{
    push_count(text, "light ", number)?;
    push_ends(text, " DE ", delta)?;
    text.push(b' ')?;
    text.extend_from_slice(verdict_name(verdict).as_bytes())?;
    text.push(b'\n')?;
    Ok(())
}

/// Appends a line for each dye with its steps, for a load in kilograms.
fn push_dyes(
    text: &mut Vec<u8>,
    load: u32,
    dyes: &[JobDye],
    steps: &[u16],
) -> Result<(), AllocError>
    requires load { load ≤ 100000 }
    requires dyes { All IsDye dyes.now }
    requires steps { length steps.now ≡ length dyes.now }
    ensures { OnOk result (text.new.items ≡ text.old.items ++ dyes_text load dyes.now steps.now) }
{
    for (i, dye) in dyes.iter().enumerate() {
        push_dye(text, dye, steps[i], load)?;
    }
    Ok(())
}

/// Appends a line for each light, with the verdict on its difference.
pub(crate) fn push_lights(
    text: &mut Vec<u8>,
    deltas: &[Iv<Base>],
    verdicts: &[Verdict],
) -> Result<(), AllocError>
    requires { length verdicts.now ≡ length deltas.now }
    ensures { OnOk result (text.new.items ≡ text.old.items
        ++ lights_text 1 deltas.now verdicts.now) }
{
    for (i, delta) in deltas.iter().enumerate() {
        push_light(text, i as u64 + 1, *delta, verdicts[i])?;
    }
    Ok(())
}

/// Appends the lines of a recipe: its dyes, its cost and its lights.
#[tactic(auto, unfolding(crate::specs::Recipes::recipe_text))]
pub(crate) fn push_recipe(text: &mut Vec<u8>, job: &Job, shown: &Shown) -> Result<(), AllocError>
    requires { FitsJob (job_view job.now) (shown_view shown.now) }
    ensures { OnOk result (text.new.items ≡ text.old.items
        ++ recipe_text (job_view job.now) (shown_view shown.now)) }
{
    push_dyes(text, job.load, job.dye.as_slice(), shown.steps.as_slice())?;
    push_count(text, "cost ", shown.cost)?;
    text.push(b'\n')?;
    push_lights(text, shown.deltas.each.as_slice(), shown.each.as_slice())
}

/// The report of one recipe: its dyes, its cost, its differences, and the verdict on all lights.
#[tactic(auto, unfolding(crate::specs::Recipes::show_text))]
pub fn show_text(alloc: Global, job: &Job, shown: &Shown) -> Result<Vec<u8>, AllocError>
    requires { FitsJob (job_view job.now) (shown_view shown.now) }
    ensures { IfOk result (λ text. text.items
        ≡ show_text (job_view job.now) (shown_view shown.now)) }
{
    let mut text = Vec::new(alloc);
    push_recipe(&mut text, job, shown)?;
    text.extend_from_slice(verdict_name(shown.whole).as_bytes())?;
    text.push(b'\n')?;
    Ok(text)
}
