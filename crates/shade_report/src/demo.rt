//! The summary of a search among the recipes of a job that is generated from a number.

ghost use Rattle.std.specs.Prelude.{◌≡◌, ◌++◌, IfOk, OnOk, length};
ghost use Rattle.shade_report.specs.Outcomes.{GoesWith, cost_text, demo_text};

use crate::claims::push_head;
use crate::lines::push_line;
use box_core::{Cert, Claim};
use std::alloc::{AllocError, Global};

/// How many lines of a certificate come before the listed recipes.
const HEAD_LINES: u64 = 3;

/// Appends the cost of a match, or the floor.
fn push_cost(text: &mut Vec<u8>, claim: &Claim, cost: Option<u64>) -> Result<(), AllocError>
    requires { GoesWith claim.now cost }
    ensures { OnOk result (text.new.items ≡ text.old.items ++ cost_text claim.now cost) }
{
    match claim {
        Claim::Match(_) => match cost {
            Some(cost) => push_line(text, "cost ", cost),
            None => Ok(()),
        },
        Claim::NoMatch => Ok(()),
        Claim::Floor(floor) => push_line(text, "floor ", *floor),
    }
}

/// The summary of a search among the recipes of the job with a number: what it found, how many
/// boxes it judged, the cost of a match or the floor, how many recipes are listed, how many lines
/// the text of the certificate has, and that the certificate was accepted.
#[tactic(auto, unfolding(crate::specs::Outcomes::demo_text))]
pub fn demo_text(
    alloc: Global,
    number: u32,
    cert: &Cert,
    boxes: u32,
    cost: Option<u64>,
) -> Result<Vec<u8>, AllocError>
    requires { GoesWith cert.now.claim cost }
    ensures { IfOk result (λ text. text.items ≡ demo_text number cert.now.claim
        (length cert.now.undecided) (length cert.now.lines) boxes cost) }
{
    let listed = cert.undecided.as_slice().len() as u64;
    let lines = cert.lines.as_slice().len() as u64;
    let mut text = Vec::new(alloc);
    push_line(&mut text, "demo ", u64::from(number))?;
    push_head(&mut text, &cert.claim, boxes)?;
    push_cost(&mut text, &cert.claim, cost)?;
    push_line(&mut text, "undecided ", listed)?;
    push_line(&mut text, "lines ", HEAD_LINES + listed + lines)?;
    text.extend_from_slice(b"check accepted\n")?;
    Ok(text)
}
