//! A certificate.

ghost use Rattle.std.specs.Prelude.{◌≡◌, ◌≤◌, true, All, length};
ghost use Rattle.std.proofs.Props.{props};
ghost use Rattle.box_specs.specs.Validity.{are_trees};
ghost use Rattle.box_core.specs.RangeProps.{claim_fits_prop, line_fits_prop};
ghost use Rattle.box_core.specs.Ranges.{ClaimFits, HaveOneLength, LineFits, StepsFit};

use crate::lists::{LineList, StepsList};
use box_specs::Claim;

/// A certificate: what it claims, the recipes that it lists as undecided, and the lines of one
/// whole tree, each line before those of the parts below it.
#[derive(Debug, Drop)]
pub struct Cert {
    pub claim: Claim,
    pub undecided: StepsList,
    pub lines: LineList,

    pub ghost whole: { are_trees 1 lines ≡ true },
    pub ghost short: { length lines ≤ 32000000 },
    pub ghost few: { length undecided ≤ 1000000 },
    pub ghost one_length: { HaveOneLength claim undecided } by { Prim.hlevel props },
    pub ghost numbers: { ClaimFits claim × All StepsFit undecided
        × All LineFits lines } by { Prim.hlevel (props, claim_fits_prop, line_fits_prop) },
}
