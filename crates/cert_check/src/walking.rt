//! The walk over the lines of a tree.

ghost use Rattle.std.specs.Prelude.{◌≡◌, ◌≤◌, ◌+◌, None, IfOk, length, replicate, false, [], ◌∷◌};
ghost use Rattle.std.specs.List.{AllByRecursion};
ghost use Rattle.box_specs.specs.Landscape.{IsSound};
ghost use Rattle.box_specs.specs.Span.{lists};
ghost use Rattle.box_specs.specs.Validity.{corners, is_pass_line, is_undecided_line, line_failure};
ghost use Rattle.cert_check.specs.Held.{AllHeld, boxes};
ghost use Rattle.cert_check.specs.Marks.{HasMarks};
ghost use Rattle.cert_check.specs.Ready.{IsReady};
ghost use Rattle.cert_check.specs.Walk.{Advances, AtMostOne, MarksBoth, next_fault};

use crate::grid::count_of;
use crate::lines::check_line;
use crate::marks::{Marks, is_pass_line, is_undecided_line, mark};
use crate::stance::Stance;
use crate::waiting::Waiting;
use box_core::{Carried, Carrying, CertLine, Why, carried};
use std::alloc::{AllocError, Global};

/// Checks a line against the first of the waiting boxes.
#[tactic(auto, using(crate::proofs::Parts::corner_within))]
fn step<L: Carrying>(
    land: &L,
    stance: &Stance,
    line: CertLine,
    waiting: &mut Waiting<Carried<L::Held>>,
    marks: &mut Marks,
    meter: &mut L::Meter,
) -> Result<Option<Why>, AllocError>
    requires ready { IsReady (L.land land.now) stance.now.cutoff
        (lists stance.now.matched.now) (lists stance.now.listed.now) }
    requires parts { AllByRecursion (IsSound (L.land land.now)) (boxes waiting.old) }
    requires held { AllHeld (L.stands land.now) waiting.old }
    requires passed { length marks.old.passed.items ≡ length (lists stance.now.matched.now) }
    requires unsure { length marks.old.unsure.items ≡ length (lists stance.now.listed.now) }
    ensures fault { IfOk result (λ fault. fault ≡ next_fault (L.land land.now) stance.now.cutoff
        (lists stance.now.matched.now) (lists stance.now.listed.now) (boxes waiting.old) line) }
    ensures goes { IfOk result (λ fault. fault ≡ None
        → Advances (L.land land.now) line (boxes waiting.old) (boxes waiting.new)) }
    ensures held { IfOk result (λ fault. fault ≡ None → AllHeld (L.stands land.now) waiting.new) }
    ensures marks { IfOk result (λ fault. fault ≡ None → MarksBoth line (boxes waiting.old)
        marks.old.passed.items marks.new.passed.items
        marks.old.unsure.items marks.new.unsure.items
        (lists stance.now.matched.now) (lists stance.now.listed.now)) }
    ensures judged { AtMostOne
        (L.judged_count land.now meter.old) (L.judged_count land.now meter.new) }
    ensures fresh { L.fresh_count land.now meter.new ≡ L.fresh_count land.now meter.old }
{
    let Some(whole) = waiting.take() else {
        return Ok(None);
    };
    let (fault, halves) = check_line(land, stance, &whole, line, meter);
    if fault.is_some() {
        return Ok(fault);
    }
    mark(
        land,
        stance.matched,
        &whole.part,
        is_pass_line(line),
        &mut marks.passed,
    );
    mark(
        land,
        stance.listed,
        &whole.part,
        is_undecided_line(line),
        &mut marks.unsure,
    );
    waiting.put_halves(halves)?;
    Ok(None)
}

/// The first line that does not hold. Where all hold, the recipes of the lines that pass and of
/// those that are undecided are marked in the end.
pub(crate) fn walk<L: Carrying>(
    alloc: Global,
    land: &L,
    stance: &Stance,
    lines: &[CertLine],
    marks: &mut Marks,
    meter: &mut L::Meter,
) -> Result<Option<(u32, Why)>, AllocError>
    requires ready { IsReady (L.land land.now) stance.now.cutoff
        (lists stance.now.matched.now) (lists stance.now.listed.now) }
    requires few_listed { length (lists stance.now.listed.now) ≤ 1000000 }
    requires few_lines { length lines.now ≤ 32000000 }
    requires passed { marks.old.passed.items
        ≡ replicate (length (lists stance.now.matched.now)) false }
    requires unsure { marks.old.unsure.items
        ≡ replicate (length (lists stance.now.listed.now)) false }
    ensures is { IfOk result (λ failure. failure ≡ line_failure (L.land land.now) stance.now.cutoff
        (lists stance.now.matched.now) (lists stance.now.listed.now)
        (4 + length (lists stance.now.listed.now)) ((L.land land.now).top ∷ []) lines.now) }
    ensures passed { IfOk result (λ failure. failure ≡ None → HasMarks marks.new.passed.items []
        (lists stance.now.matched.now)
        (corners is_pass_line ((L.land land.now).top ∷ []) lines.now)) }
    ensures unsure { IfOk result (λ failure. failure ≡ None → HasMarks marks.new.unsure.items []
        (lists stance.now.listed.now)
        (corners is_undecided_line ((L.land land.now).top ∷ []) lines.now)) }
    ensures judged { L.judged_count land.now meter.new
        ≤ L.judged_count land.now meter.old + length lines.now }
    ensures fresh { L.fresh_count land.now meter.new ≤ L.fresh_count land.now meter.old + 1 }
{
    let mut waiting = Waiting::new(alloc);
    waiting.put(carried::top(land, meter))?;
    let first = 4 + count_of(stance.listed) as u32;
    for (i, line) in lines.iter().enumerate() {
        let fault = step(land, stance, *line, &mut waiting, marks, meter)?;
        if let Some(why) = fault {
            return Ok(Some((first + i as u32, why)));
        }
    }
    Ok(None)
}
