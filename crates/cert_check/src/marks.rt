//! Which recipes of the lists have their lines.

ghost use Rattle.std.specs.Prelude.{◌≡◌, ◌≤◌, length};
ghost use Rattle.box_specs.specs.Span.{IsWithin, lists};
ghost use Rattle.box_specs.specs.Validity.{is_pass_line, is_undecided_line};
ghost use Rattle.cert_check.specs.Marks.{MarksMore, first_unmarked};
ghost use Rattle.cert_check.specs.Ready.{IsSorted};
ghost use Rattle.cert_check.specs.Walk.{recipe_if};

use crate::list::index_of;
use box_core::{BoxR, CertLine, Landscape, Why};
use price_grid::Steps;

/// A mark for each recipe that passes and for each undecided one.
#[derive(Drop)]
pub(crate) struct Marks {
    pub passed: Vec<bool>,
    pub unsure: Vec<bool>,
}

/// Whether a line says that its recipe is undecided.
pub(crate) fn is_undecided_line(line: CertLine) -> bool
    ensures { result ≡ is_undecided_line line }
{
    match line {
        CertLine::Undecided => true,
        CertLine::Split { .. } => false,
        CertLine::Limit(_) | CertLine::Fail(_) | CertLine::Dear | CertLine::Pass => false,
    }
}

/// Whether a line says that its recipe passes.
pub(crate) fn is_pass_line(line: CertLine) -> bool
    ensures { result ≡ is_pass_line line }
{
    match line {
        CertLine::Pass => true,
        CertLine::Split { .. } => false,
        CertLine::Limit(_) | CertLine::Fail(_) | CertLine::Dear | CertLine::Undecided => false,
    }
}

/// Marks the recipe of a box in a list, if the box has a line for that list.
pub(crate) fn mark<L: Landscape>(
    land: &L,
    listed: &[Steps],
    part: &BoxR,
    has_line: bool,
    marks: &mut Vec<bool>,
)
    requires sorted { IsSorted (L.land land.now) (lists listed.now) }
    requires recipe { IsWithin part.now.lo (L.land land.now).top }
    requires long { length marks.old.items ≡ length (lists listed.now) }
    ensures { MarksMore
        marks.old.items marks.new.items (recipe_if has_line part.now) (lists listed.now) }
{
    if has_line {
        if let Some(i) = index_of(land, listed, &part.lo) {
            marks[i] = true;
        }
    }
}

/// The first recipe of a list without a mark. The list begins in the line of the given number.
pub(crate) fn first_unmarked(marks: &[bool], first_line: u32) -> Option<(u32, Why)>
    requires few { length marks.now ≤ 1000000 }
    requires line { first_line ≤ 4000000 }
    ensures { result ≡ first_unmarked first_line marks.now }
{
    for (i, marked) in marks.iter().enumerate() {
        if !*marked {
            return Some((first_line + i as u32, Why::WrongList));
        }
    }
    None
}
