//! The words that are printed for a claim.

ghost use Rattle.std.specs.Prelude.{◌≡◌, ◌++◌, OnOk};
ghost use Rattle.shade_report.specs.Outcomes.{accepted_text, claim_name, head_text};

use crate::lines::push_line;
use box_core::Claim;
use std::alloc::AllocError;

/// What a search found, as a line of its report or of a summary, without the line feed.
fn claim_name(claim: &Claim) -> &'static str
    ensures { result.now ≡ claim_name claim.now }
{
    match claim {
        Claim::Match(_) => "match",
        Claim::NoMatch => "no match",
        Claim::Floor(_) => "budget ended",
    }
}

/// The report of a check that accepted a certificate, by the certificate's claim.
pub fn accepted_text(claim: &Claim) -> &'static str
    ensures { result.now ≡ accepted_text claim.now }
{
    match claim {
        Claim::Match(_) => "accepted match\n",
        Claim::NoMatch => "accepted none\n",
        Claim::Floor(_) => "accepted floor\n",
    }
}

/// Appends what a search found, and how many boxes it judged.
pub(crate) fn push_head(text: &mut Vec<u8>, claim: &Claim, boxes: u32) -> Result<(), AllocError>
    ensures { OnOk result (text.new.items ≡ text.old.items ++ head_text claim.now boxes) }
{
    text.extend_from_slice(claim_name(claim).as_bytes())?;
    text.push(b'\n')?;
    push_line(text, "boxes ", u64::from(boxes))
}
