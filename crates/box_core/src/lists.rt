//! Lists of recipes and of lines.

ghost use Rattle.std.specs.Prelude.{◌≡◌, map};

use box_specs::CertLine;
use price_grid::Steps;
use std::marker::Model;

/// A list of recipes, in any order. Contracts see each recipe as its numbers of steps.
#[derive(Debug, Drop)]
pub struct StepsList {
    list: Vec<Steps>,
}

impl Model for StepsList {
    ghost use Rattle.std.specs.Prelude.{ℕ, List, map};

    ghost Value = { List (List ℕ) };

    ghost view = { λ l. map (λ steps. steps.items) l.list.items };
}

impl StepsList {
    /// The list of these recipes.
    pub fn of(list: Vec<Steps>) -> StepsList
        ensures { result ≡ map (λ steps. steps.items) list.items }
    {
        StepsList { list }
    }

    /// The recipes as a slice.
    pub fn as_slice(&self) -> &[Steps]
        ensures { map (λ steps. steps.items) result.now ≡ self.now }
    {
        self.list.as_slice()
    }
}

/// The lines of a tree in order.
#[derive(Debug, Drop)]
pub struct LineList {
    list: Vec<CertLine>,
}

impl Model for LineList {
    ghost use Rattle.std.specs.Prelude.{List};
    ghost use Rattle.box_specs.specs.declared.certificate.CertLine.{CertLine};

    ghost Value = { List CertLine };

    ghost view = { λ l. l.list.items };
}

impl LineList {
    /// The list of these lines.
    pub fn of(list: Vec<CertLine>) -> LineList
        ensures { result ≡ list.items }
    {
        LineList { list }
    }

    /// The lines as a slice.
    pub fn as_slice(&self) -> &[CertLine]
        ensures { result.now ≡ self.now }
    {
        self.list.as_slice()
    }
}
