//! The check of a whole certificate.

ghost use Rattle.std.specs.Prelude.{◌≡◌, ◌≤◌, ◌+◌, ◌↔◌, IfOk, length, true};
ghost use Rattle.box_specs.specs.declared.certificate.Checked.TheVariants.{Accepted};
ghost use Rattle.box_specs.specs.Meaning.{Means};
ghost use Rattle.box_specs.specs.Span.{lists};
ghost use Rattle.box_specs.specs.Validity.{IsValid, first_failure};
ghost use Rattle.cert_check.specs.Ready.{IsReady};
ghost use Rattle.cert_check.specs.Result.{checked_of, tree_failure};

use crate::grid::count_of;
use crate::list::list_failure;
use crate::marks::{Marks, first_unmarked};
use crate::stance::{Stance, cutoff_of, matched_of};
use crate::walking::walk;
use box_core::{Carrying, Cert, CertLine, Checked, Cutoff, Why};
use std::alloc::{AllocError, Global};

/// The first failure of the lines of the tree, or else of a list against them.
fn tree_failure<L: Carrying>(
    alloc: Global,
    land: &L,
    stance: &Stance,
    lines: &[CertLine],
    meter: &mut L::Meter,
) -> Result<Option<(u32, Why)>, AllocError>
    requires ready { IsReady (L.land land.now) stance.now.cutoff
        (lists stance.now.matched.now) (lists stance.now.listed.now) }
    requires few_matched { length (lists stance.now.matched.now) ≤ 1000000 }
    requires few_listed { length (lists stance.now.listed.now) ≤ 1000000 }
    requires few_lines { length lines.now ≤ 32000000 }
    ensures is { IfOk result (λ failure. failure ≡ tree_failure (L.land land.now) stance.now.cutoff
        (lists stance.now.matched.now) (lists stance.now.listed.now) lines.now) }
    ensures judged { L.judged_count land.now meter.new
        ≤ L.judged_count land.now meter.old + length lines.now }
    ensures fresh { L.fresh_count land.now meter.new ≤ L.fresh_count land.now meter.old + 1 }
{
    let mut marks = Marks {
        passed: vec![in alloc; false; count_of(stance.matched)]?,
        unsure: vec![in alloc; false; count_of(stance.listed)]?,
    };
    let failure = walk(alloc, land, stance, lines, &mut marks, meter)?;
    if failure.is_some() {
        return Ok(failure);
    }
    let failure = first_unmarked(marks.unsure.as_slice(), 4);
    if failure.is_some() {
        return Ok(failure);
    }
    Ok(first_unmarked(marks.passed.as_slice(), 2))
}

/// The first failure of a certificate.
fn first_failure<L: Carrying>(
    alloc: Global,
    land: &L,
    cert: &Cert,
    meter: &mut L::Meter,
) -> Result<Option<(u32, Why)>, AllocError>
    ensures is { IfOk result (λ failure. failure ≡ first_failure (L.land land.now)
        cert.now.claim cert.now.undecided cert.now.lines) }
    ensures judged { L.judged_count land.now meter.new
        ≤ L.judged_count land.now meter.old + length cert.now.lines }
    ensures fresh { L.fresh_count land.now meter.new ≤ L.fresh_count land.now meter.old + 1 }
{
    // For its clause that the landscape is lawful.
    let _top = land.top();
    let matched = matched_of(&cert.claim);
    let failure = list_failure(land, &Cutoff::Never, matched, 2);
    if failure.is_some() {
        return Ok(failure);
    }
    let stance = Stance {
        cutoff: cutoff_of(&cert.claim),
        matched,
        listed: cert.undecided.as_slice(),
    };
    let failure = list_failure(land, &stance.cutoff, stance.listed, 4);
    if failure.is_some() {
        return Ok(failure);
    }
    tree_failure(alloc, land, &stance, cert.lines.as_slice(), meter)
}

/// Accepted where nothing fails, and else refused with the first failure.
fn checked_of(failure: Option<(u32, Why)>) -> Checked
    ensures { result ≡ checked_of failure }
{
    match failure {
        None => Checked::Accepted,
        Some((line, why)) => Checked::Refused { line, why },
    }
}

/// Checks a certificate. It is accepted exactly where it is valid, and then what it claims holds of
/// the plain list of recipes. Else the result is the line of its first failure, and why it fails. At
/// most one box is evaluated afresh, that of all recipes.
pub fn check<L: Carrying>(
    alloc: Global,
    land: &L,
    cert: &Cert,
    meter: &mut L::Meter,
) -> Result<Checked, AllocError>
    ensures is { IfOk result (λ checked. checked ≡ checked_of (first_failure (L.land land.now)
        cert.now.claim cert.now.undecided cert.now.lines)) }
    ensures valid { IfOk result (λ checked. (checked ≡ Accepted) ↔ IsValid (L.land land.now)
        cert.now.claim cert.now.undecided cert.now.lines) }
    ensures means { IfOk result (λ checked. checked ≡ Accepted → Means (L.land land.now)
        cert.now.undecided cert.now.claim) }
    ensures judged { L.judged_count land.now meter.new
        ≤ L.judged_count land.now meter.old + length cert.now.lines }
    ensures fresh { L.fresh_count land.now meter.new ≤ L.fresh_count land.now meter.old + 1 }
{
    // For its clause that the landscape is lawful.
    let _top = land.top();
    let failure = first_failure(alloc, land, cert, meter)?;
    Ok(checked_of(failure))
}
