//! Tests of the check, worked by hand from what a valid certificate is.

ghost use Rattle.std.specs.Prelude.{◌≡◌, ◌∷◌, [], map, true};
ghost use Rattle.box_specs.specs.declared.certificate.CertLine.TheVariants.{Split};
ghost use Rattle.box_tests.specs.Certs.{are_parts};

use crate::Ladder;
use box_core::{Cert, CertLine as Line, Checked, Claim, Evals, LineList, StepsList, Why};
use cert_check::check;
use price_grid::Steps;
use std::alloc::{AllocError, Global};
use std::test::Fail;

// The recipe of `n` steps.
fn recipe(n: u16) -> Steps
    ensures { result.items ≡ n ∷ [] }
{
    let mut steps = Steps::new();
    steps.push(n);
    steps
}

// A certificate of these parts.
fn cert_of(claim: Claim, listed: Vec<Steps>, lines: Vec<Line>) -> Cert
    requires { are_parts claim (map (λ steps. steps.items) listed.items) lines.items ≡ true }
{
    Cert {
        claim,
        undecided: StepsList::of(listed),
        lines: LineList::of(lines),
    }
}

// The result of a check over recipes of 0 to 4 steps, where those of fewer than `first` fail and
// those of more than `last` are excluded, and the number of boxes that were judged.
fn checked(
    alloc: Global,
    first: u16,
    last: u16,
    cert: &Cert,
) -> Result<(Checked, u64), AllocError> {
    let land = Ladder {
        most: 4,
        first,
        last,
    };
    let mut meter = Evals::default();
    let checked = check(alloc, &land, cert, &mut meter)?;
    Ok((checked, meter.judged))
}

fn refused(line: u32, why: Why) -> Checked {
    Checked::Refused { line, why }
}

fn split(mid: u16) -> Line
    ensures { result ≡ Split 1 mid }
{
    Line::Split { dye: 1, mid }
}

// The tree is not the one that the search would write.
#[test]
fn accepts_any_tree(rt: HostRuntime) -> Result<(), Fail> {
    let alloc = rt.alloc();
    let lines = vec![in alloc; split(1), Line::Fail(1), split(2), Line::Pass, Line::Dear]?;
    let cert = cert_of(Claim::Match(recipe(2)), Vec::new(alloc), lines);
    assert_eq!(rt; checked(alloc, 2, 3, &cert)?, (Checked::Accepted, 2));
    Ok(())
}

// A box that holds the recipe of the match is not too dear.
#[test]
fn refuses_a_dear_line(rt: HostRuntime) -> Result<(), Fail> {
    let alloc = rt.alloc();
    let lines = vec![in alloc; split(1), Line::Fail(1), Line::Dear]?;
    let cert = cert_of(Claim::Match(recipe(2)), Vec::new(alloc), lines);
    assert_eq!(rt; checked(alloc, 2, 3, &cert)?, (refused(6, Why::NotDear), 1));
    Ok(())
}

// A split after the most steps of a box is refused: its upper half would be empty.
#[test]
fn refuses_an_empty_half(rt: HostRuntime) -> Result<(), Fail> {
    let alloc = rt.alloc();
    let lines = vec![in alloc; split(4), Line::Fail(1), Line::Dear]?;
    let cert = cert_of(Claim::Match(recipe(2)), Vec::new(alloc), lines);
    assert_eq!(rt;
        checked(alloc, 2, 3, &cert)?,
        (refused(4, Why::BadSplit), 0)
    );
    Ok(())
}

// All lines hold, but the listed recipe has no undecided line.
#[test]
fn refuses_a_listed_recipe(rt: HostRuntime) -> Result<(), Fail> {
    let alloc = rt.alloc();
    let lines = vec![in alloc; split(1), Line::Fail(1), split(2), Line::Pass, Line::Dear]?;
    let cert = cert_of(Claim::Match(recipe(2)), vec![in alloc; recipe(1)]?, lines);
    assert_eq!(rt;
        checked(alloc, 2, 3, &cert)?,
        (refused(4, Why::WrongList), 2)
    );
    Ok(())
}

// All lines hold, but the recipe of the match has no passing line: its box is excluded.
#[test]
fn refuses_a_match(rt: HostRuntime) -> Result<(), Fail> {
    let alloc = rt.alloc();
    let lines = vec![in alloc; split(2), Line::Fail(1), Line::Limit(3)]?;
    let cert = cert_of(Claim::Match(recipe(3)), Vec::new(alloc), lines);
    assert_eq!(rt;
        checked(alloc, 3, 2, &cert)?,
        (refused(2, Why::WrongList), 1)
    );
    Ok(())
}
