//! `diff`: the CMC(l:c) difference of two columns under a light, and its verdict where there is a
//! tolerance.

ghost use Rattle.std.specs.Prelude.{◌≡◌, ◌≤◌, codes, IfOk, map, option_map, string_bytes};
ghost use Rattle.std.specs.Option.{ForSome};
ghost use Rattle.run_core.specs.Answers.{Evaluation};
ghost use Rattle.fix_bounds.specs.Scales.{base_unit};
ghost use Rattle.dye_run.specs.Commands.{asking_of};
ghost use Rattle.dye_run.specs.Diff.{diff_report, diff_with, diff_words, difference_report, tolerance_of};
ghost use Rattle.dye_run.specs.Forms as form;
ghost use Rattle.run_core.specs.Judging.{Matches};
ghost use Rattle.dye_run.specs.Views.{diff_view, tables_view, tolerance_view};

use crate::colour::difference;
use crate::inputs::read_tables;
use crate::lines::push_enclosure;
use crate::tables::{Tables, curve_from};
use crate::tolerance::Tolerance;
use crate::words::{names_file, number_in};
use cmc_bounds::Cmc;
use fix_bounds::{Base, Iv};
use metamerism::judge_light;
use run_core::{Conclusion, Inquiry, Report, Stop, plain_report};
use shade_report::verdict_name;
use shelf_io::Shelf;
use std::alloc::{AllocError, Global};

/// The words CURVES STANDARD SAMPLE WEIGHTS L10 C10 [TOL].
#[derive(Clone, Copy)]
pub(crate) struct Diff<'a> {
    curves: &'a str,
    standard: &'a str,
    sample: &'a str,
    weights: &'a str,
    rule: Cmc,
    tolerance: Option<Tolerance>,
}

// The numbers that the words spell, each only if it is in its range.
#[derive(Clone, Copy)]
struct Numbers {
    l10: Option<u32>,
    c10: Option<u32>,
    tolerance: Option<Option<Tolerance>>,
}

fn tolerance_of(words: &[String]) -> Option<Option<Tolerance>>
    ensures { option_map tolerance_view result ≡ tolerance_of (map string_bytes words.now) }
{
    match words {
        [] => Some(None),
        [word] => match number_in(0, 100_000, word.as_str()) {
            Some(thousandths) => Some(Some(Tolerance { thousandths })),
            None => None,
        },
        _ => None,
    }
}

impl<'a> Diff<'a> {
    pub(crate) fn of_words(words: &'a [String]) -> Option<Diff<'a>>
        ensures { option_map diff_view result ≡ diff_words (map string_bytes words.now) }
    {
        let [curves, standard, sample, weights, l, c, rest @ ..] = words else {
            return None;
        };
        let numbers = Numbers {
            l10: number_in(1, 100, l.as_str()),
            c10: number_in(1, 100, c.as_str()),
            tolerance: tolerance_of(rest),
        };
        Diff::with(
            curves.as_str(),
            standard.as_str(),
            sample.as_str(),
            weights.as_str(),
            &numbers,
        )
    }

    fn with(
        curves: &'a str,
        standard: &'a str,
        sample: &'a str,
        weights: &'a str,
        numbers: &Numbers,
    ) -> Option<Diff<'a>>
        requires l { ForSome numbers.now.l10 (λ l. (1 ≤ l) × (l ≤ 100)) }
        requires c { ForSome numbers.now.c10 (λ c. (1 ≤ c) × (c ≤ 100)) }
        ensures { option_map diff_view result
            ≡ diff_with curves.now standard.now sample.now weights.now
            numbers.now.l10 numbers.now.c10 (option_map tolerance_view numbers.now.tolerance) }
    {
        let l10 = numbers.l10?;
        let c10 = numbers.c10?;
        let tolerance = numbers.tolerance?;
        if !names_file(curves) || !names_file(weights) {
            return None;
        }
        Some(Diff {
            curves,
            standard,
            sample,
            weights,
            rule: Cmc {
                l10: l10 as u8,
                c10: c10 as u8,
            },
            tolerance,
        })
    }
}

impl<'a> Inquiry<'a> for Diff<'a> {
    type Input = Tables;

    ghost asking = { λ c. asking_of (form.diff (diff_view c)) };

    ghost judged = { λ c tables. diff_report (diff_view c) (tables_view tables) };

    fn read<H: Shelf>(self, alloc: Global, shelf: &mut H) -> Result<Tables, Stop<'a>> {
        read_tables(alloc, shelf, self.curves, self.weights)
    }

    #[tactic(auto, unfolding(crate::specs::Diff::diff_report))]
    fn report(self, alloc: Global, tables: &Tables) -> Result<Report<'a>, Stop<'a>> {
        let standard = curve_from(self.curves, self.standard, &tables.book)?;
        let sample = curve_from(self.curves, self.sample, &tables.book)?;
        let found = difference(&self.rule, &tables.weights, standard, sample);
        let report = difference_report(alloc, self.tolerance, found)?;
        Ok(report)
    }
}

// The line of a difference, and a line for its verdict where there is a tolerance.
fn difference_report<'a>(
    alloc: Global,
    tolerance: Option<Tolerance>,
    difference: Iv<Base>,
) -> Result<Report<'a>, AllocError>
    ensures { IfOk result (λ report.
        (e : Evaluation) → e.at base_unit ≡ difference → e.label ≡ codes "DE"
        → Matches report (difference_report (tolerance_view tolerance) e)) }
{
    let mut text = Vec::new(alloc);
    push_enclosure(&mut text, "DE", difference)?;
    let Some(tolerance) = tolerance else {
        return Ok(plain_report(text));
    };
    let verdict = judge_light(tolerance.thousandths, 1, difference);
    text.extend_from_slice(verdict_name(verdict).as_bytes())?;
    text.push(b'\n')?;
    Ok(Report {
        conclusion: Conclusion::Judged(verdict),
        text,
        written: None,
    })
}
