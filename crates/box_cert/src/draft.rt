//! A certificate of which the first lines are read. It takes one whole line at a time.

ghost use Rattle.std.specs.Prelude.{◌≡◌, ◌≤◌, [], IfOk, IfSome, codes};
ghost use Rattle.std.specs.Str.{bytes_eq};
ghost use Rattle.box_core.specs.Ranges.{ClaimFits};
ghost use Rattle.box_cert.specs.declared.draft.Part.{Part};
ghost use Rattle.box_cert.specs.Drafts.{IsDraft, Takes, is_whole, part_before, still};
ghost use Rattle.box_cert.specs.Spelling.{content};
ghost use Rattle.box_cert.specs.Claims.{HasDims, claim_of};
ghost use Rattle.box_cert.specs.Form.{count_of};
ghost use Rattle.box_cert.specs.Reading.{Gives, parts_of};
ghost use Rattle.box_cert.specs.Text.{IsCertFor};

use crate::fault::{CertError, fault};
use crate::line::{read_line, read_recipe};
use crate::number::{cut_at, number};
use box_core::{Cert, CertLine, CertRule, Claim, LineList, StepsList};
use price_grid::Steps;
use std::alloc::Global;

/// What the next line has to be.
#[derive(Clone, Copy, Debug)]
pub(crate) enum Part {
    Header,
    Claim,
    /// The number of listed recipes.
    Count,
    /// A listed recipe, before so many others.
    Recipe(u32),
    /// A line of the tree, where so many subtrees are to come. With none nothing may follow.
    Tree(u32),
}

/// A certificate whose lines before that of `number` are read.
#[derive(Drop)]
pub(crate) struct Draft {
    dims: usize,
    number: u32,
    part: Part,
    /// No match, until the claim is read.
    claim: Claim,
    listed: Vec<Steps>,
    lines: Vec<CertLine>,
}

fn is_header(line: &[u8]) -> bool
    ensures { result ≡ bytes_eq line.now (codes "dye-cert 1") }
{
    line == b"dye-cert 1".as_slice()
}

/// The claim that a line spells.
fn read_claim(line: &[u8], dims: usize) -> Option<Claim>
    requires some { 1 ≤ dims }
    requires few { dims ≤ 12 }
    ensures is { result ≡ claim_of dims line.now }
    ensures fits { IfSome result ClaimFits }
    ensures dims { IfSome result (HasDims dims) }
{
    match cut_at(b' ', line) {
        Some((word, tail)) => {
            if word == b"match".as_slice() {
                match read_recipe(tail, dims) {
                    Some(steps) => Some(Claim::Match(steps)),
                    None => None,
                }
            } else if word == b"floor".as_slice() {
                match number(tail, 0, 1_000_000_000_000_000) {
                    Some(cost) => Some(Claim::Floor(cost)),
                    None => None,
                }
            } else {
                None
            }
        }
        None => {
            if line == b"none".as_slice() {
                Some(Claim::NoMatch)
            } else {
                None
            }
        }
    }
}

/// The number of recipes that a line states after the word before their list.
fn read_count(line: &[u8], word: &[u8], most: u32) -> Option<u32>
    ensures is { result ≡ count_of (record { word = word.now; least = 0; most = most }) line.now }
    ensures few { IfSome result (λ n. n ≤ most) }
{
    let (first, tail) = cut_at(b' ', line)?;
    if first != word {
        return None;
    }
    let count = number(tail, 0, u64::from(most))? as u32;
    Some(count)
}

/// How many subtrees follow a line.
fn parts_of(line: CertLine) -> u32
    ensures { result ≡ parts_of line }
{
    match line {
        CertLine::Split { .. } => 2,
        _ => 0,
    }
}

/// The part that comes next, where so many listed recipes are to come.
fn part_before(count: u32) -> Part
    ensures { result ≡ part_before count }
{
    if count > 0 {
        Part::Recipe(count - 1)
    } else {
        Part::Tree(1)
    }
}

/// Whether the tree is whole.
fn is_whole(part: Part) -> bool
    ensures { result ≡ is_whole part }
{
    match part {
        Part::Tree(wanted) => wanted == 0,
        _ => false,
    }
}

impl Draft {
    /// A draft of a certificate for recipes of `dims` dyes, before its first line.
    pub(crate) fn new(alloc: Global, dims: usize) -> Draft
        requires some { 1 ≤ dims }
        requires few { dims ≤ 12 }
        ensures draft { IsDraft result }
        ensures dims { result.dims ≡ dims }
        ensures number { result.number ≡ 1 }
        ensures part { result.part ≡ Part.Header }
    {
        Draft {
            dims,
            number: 1,
            part: Part::Header,
            claim: Claim::NoMatch,
            listed: Vec::new(alloc),
            lines: Vec::new(alloc),
        }
    }

    fn take_header(&mut self, line: &[u8]) -> Result<(), CertError>
        requires draft { IsDraft self.old }
        requires short { self.old.number ≤ 32000000 }
        requires part { self.old.part ≡ Part.Header }
        ensures { Takes self.old line.now result self.new }
    {
        if !is_header(line) {
            return Err(fault(self.number, CertRule::BadHeader));
        }
        self.part = Part::Claim;
        self.number += 1;
        Ok(())
    }

    fn take_claim(&mut self, line: &[u8]) -> Result<(), CertError>
        requires draft { IsDraft self.old }
        requires short { self.old.number ≤ 32000000 }
        requires part { self.old.part ≡ Part.Claim }
        ensures { Takes self.old line.now result self.new }
    {
        let Some(claim) = read_claim(line, self.dims) else {
            return Err(fault(self.number, CertRule::BadClaim));
        };
        self.claim = claim;
        self.part = Part::Count;
        self.number += 1;
        Ok(())
    }

    fn take_count(&mut self, line: &[u8]) -> Result<(), CertError>
        requires draft { IsDraft self.old }
        requires short { self.old.number ≤ 32000000 }
        requires part { self.old.part ≡ Part.Count }
        ensures { Takes self.old line.now result self.new }
    {
        let Some(count) = read_count(line, b"undecided", 1_000_000) else {
            return Err(fault(self.number, CertRule::BadClaim));
        };
        self.part = part_before(count);
        self.number += 1;
        Ok(())
    }

    fn take_recipe(&mut self, line: &[u8], others: u32) -> Result<(), CertError>
        requires draft { IsDraft self.old }
        requires short { self.old.number ≤ 32000000 }
        requires part { self.old.part ≡ Part.Recipe others }
        ensures { Takes self.old line.now result self.new }
    {
        let Some(steps) = read_recipe(line, self.dims) else {
            return Err(fault(self.number, CertRule::BadLine));
        };
        let Ok(()) = self.listed.push(steps) else {
            return Err(CertError::Memory);
        };
        self.part = part_before(others);
        self.number += 1;
        Ok(())
    }

    fn take_tree_line(&mut self, line: &[u8], wanted: u32) -> Result<(), CertError>
        requires draft { IsDraft self.old }
        requires short { self.old.number ≤ 32000000 }
        requires part { self.old.part ≡ Part.Tree wanted }
        ensures { Takes self.old line.now result self.new }
    {
        if wanted == 0 {
            return Err(self.left());
        }
        let Some(read) = read_line(line) else {
            return Err(fault(self.number, CertRule::BadLine));
        };
        let Ok(()) = self.lines.push(read) else {
            return Err(CertError::Memory);
        };
        self.part = Part::Tree(parts_of(read) + (wanted - 1));
        self.number += 1;
        Ok(())
    }

    /// Takes the next line, which is given without its line feed.
    pub(crate) fn take(&mut self, line: &[u8]) -> Result<(), CertError>
        requires draft { IsDraft self.old }
        requires short { self.old.number ≤ 32000000 }
        ensures { Takes self.old line.now result self.new }
    {
        match self.part {
            Part::Header => self.take_header(line),
            Part::Claim => self.take_claim(line),
            Part::Count => self.take_count(line),
            Part::Recipe(others) => self.take_recipe(line, others),
            Part::Tree(wanted) => self.take_tree_line(line, wanted),
        }
    }

    /// Whether the tree is whole, so that nothing may follow.
    pub(crate) fn is_whole(&self) -> bool
        ensures { result ≡ is_whole self.now.part }
    {
        is_whole(self.part)
    }

    /// The fault of what follows a whole tree.
    pub(crate) fn left(&self) -> CertError
        ensures { result ≡ CertError.Fault (record { line = self.now.number; rule = CertRule.Left }) }
    {
        fault(self.number, CertRule::Left)
    }

    /// The certificate, where all lines were taken and nothing is left.
    pub(crate) fn finish(self) -> Result<Cert, CertError>
        requires { IsDraft self }
        ensures is { Gives (λ cert. content cert) result (still self [] []) }
        ensures fits { IfOk result (λ cert. IsCertFor self.dims (content cert)) }
    {
        if !is_whole(self.part) {
            return Err(fault(self.number, CertRule::Missing));
        }
        Ok(Cert {
            claim: self.claim,
            undecided: StepsList::of(self.listed),
            lines: LineList::of(self.lines),
        })
    }
}
