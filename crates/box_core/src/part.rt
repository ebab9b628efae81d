//! A box of recipes, and its halves.

ghost use Rattle.std.specs.Prelude.{◌≡◌, ◌+◌, ◌-◌, ◌↔◌, ◌<◌, IsNone, IfSome, true, false, length};
ghost use Rattle.std.specs.List.{slice_set};
ghost use Rattle.box_specs.specs.Span.{is_single};
ghost use Rattle.box_specs.specs.Splits.{cut_of, is_cut, lower_half, upper_half};
ghost use Rattle.box_specs.specs.Validity.{splits};
ghost use Rattle.box_core.specs.Cuts.{CutsAt};

use crate::cutting::{CutPoint, cut_of};
use price_grid::{Steps, copy_of};
use std::marker::Model;

/// The recipes from a lower corner to an upper one, dye by dye: one to twelve dyes.
#[derive(Debug, Drop)]
pub struct BoxR {
    /// The fewest steps of each dye.
    pub lo: Steps,
    /// The most steps of each dye.
    pub hi: Steps,
}

impl Model for BoxR {
    ghost use Rattle.box_specs.specs.Span.{HasDyes, IsBox, Span};

    ghost Value = { Span };

    ghost view = { λ b. record { lo = b.lo.items; hi = b.hi.items } };

    ghost invariant = { λ b.
        IsBox (record { lo = b.lo.items; hi = b.hi.items })
        × HasDyes (record { lo = b.lo.items; hi = b.hi.items }) };
}

impl BoxR {
    /// Whether the box is one recipe.
    pub fn is_single(&self) -> bool
        ensures { result ≡ is_single self.now }
    {
        self.lo.as_slice() == self.hi.as_slice()
    }
}

/// A box in two halves.
#[derive(Debug, Drop)]
pub struct Cut {
    /// The number of the dye that is split, from 1.
    pub dye: u8,
    /// The most steps of it in the lower half.
    pub mid: u16,
    /// The lower half.
    pub left: BoxR,
    /// The upper half.
    pub right: BoxR,
}

/// The same steps, but `n` of one dye.
fn with_steps(steps: &Steps, dye: usize, n: u16) -> Steps
    requires { dye < length steps.now.items }
    ensures { result.items ≡ slice_set steps.now.items dye n }
{
    let mut copy = copy_of(steps);
    copy[dye] = n;
    copy
}

/// The recipes of the box up to the cut.
fn lower_half(part: &BoxR, cut: CutPoint) -> BoxR
    requires { is_cut part.now (record { dye = cut.dye; mid = cut.mid }) ≡ true }
    ensures { result ≡ lower_half part.now (record { dye = cut.dye; mid = cut.mid }) }
{
    BoxR {
        lo: copy_of(&part.lo),
        hi: with_steps(&part.hi, cut.dye, cut.mid),
    }
}

/// The number after `mid`, which fits its type because `most` is greater.
fn next_below(mid: u16, most: u16) -> u16
    requires { mid < most }
    ensures { result ≡ mid + 1 }
{
    mid + 1
}

/// The recipes of the box above the cut.
fn upper_half(part: &BoxR, cut: CutPoint) -> BoxR
    requires { is_cut part.now (record { dye = cut.dye; mid = cut.mid }) ≡ true }
    ensures { result ≡ upper_half part.now (record { dye = cut.dye; mid = cut.mid }) }
{
    let next = next_below(cut.mid, part.hi[cut.dye]);
    BoxR {
        lo: with_steps(&part.lo, cut.dye, next),
        hi: copy_of(&part.hi),
    }
}

/// Splits a box of more than one recipe. If it has recipes with none and recipes with some of a
/// dye, the first such dye is split into none and some; else the dye with the widest range, the
/// first on a tie, is split in the middle, rounded down.
pub fn split(part: &BoxR) -> Cut
    requires { is_single part.now ≡ false }
    ensures { CutsAt part.now (cut_of part.now) result }
{
    let cut = cut_of(part.lo.as_slice(), part.hi.as_slice());
    Cut {
        dye: cut.dye as u8 + 1,
        mid: cut.mid,
        left: lower_half(part, cut),
        right: upper_half(part, cut),
    }
}

/// Whether the box can be split after `mid` steps of the dye of this number, from 1.
fn can_split(part: &BoxR, dye: u8, mid: u16) -> bool
    ensures { result ≡ splits part.now dye mid }
{
    if dye == 0 {
        return false;
    }
    let i = usize::from(dye) - 1;
    i < part.lo.len() && part.lo[i] <= mid && mid < part.hi[i]
}

/// Both halves of a box that is split after `mid` steps of the dye of this number, from 1. `None`
/// exactly where the dye does not exist, or a half would be empty.
pub fn halves(part: &BoxR, dye: u8, mid: u16) -> Option<(BoxR, BoxR)>
    ensures none { IsNone result ↔ (splits part.now dye mid ≡ false) }
    ensures both { IfSome result (λ h.
        (h.0 ≡ lower_half part.now (record { dye = dye - 1; mid = mid }))
        × (h.1 ≡ upper_half part.now (record { dye = dye - 1; mid = mid }))) }
{
    if !can_split(part, dye, mid) {
        return None;
    }
    let cut = CutPoint {
        dye: usize::from(dye) - 1,
        mid,
    };
    Some((lower_half(part, cut), upper_half(part, cut)))
}
