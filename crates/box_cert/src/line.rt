//! The lines of a tree and of a list of recipes, both ways.

ghost use Rattle.std.specs.Prelude.{◌≡◌, ◌+◌, ◌≤◌, ◌++◌, ◌∷◌, IfSome, decimal, length, option_map, ℕ, List, IsNone};
ghost use Rattle.arrayvec.specs.ArrayVec.{array_vec_len};
ghost use Rattle.box_core.specs.Ranges.{LineFits, StepsFit};
ghost use Rattle.box_specs.specs.declared.certificate.CertLine.{CertLine};
ghost use Rattle.box_cert.specs.Lines.{line_of, recipe_of, split_of};
ghost use Rattle.box_cert.specs.Numbers.{number_of};
ghost use Rattle.box_cert.specs.LineTexts.{line_text, numbers_text};

use crate::number::{cut_at, number, put_small};
use arrayvec::ArrayVec;
use box_core::CertLine;
use price_grid::Steps;

/// The split that the text after the letter spells.
fn split_of(text: &[u8]) -> Option<CertLine>
    ensures is { result ≡ split_of text.now }
    ensures fits { IfSome result LineFits }
{
    let (dye, mid) = cut_at(b' ', text)?;
    let dye = number(dye, 1, 12)? as u8;
    let mid = number(mid, 0, 4000)? as u16;
    Some(CertLine::Split { dye, mid })
}

/// The limit that the text after the letter spells.
fn limit_of(text: &[u8]) -> Option<CertLine>
    ensures is { result ≡ option_map (λ k. CertLine.Limit k) (number_of 1 5 text.now) }
    ensures fits { IfSome result LineFits }
{
    let limit = number(text, 1, 5)? as u8;
    Some(CertLine::Limit(limit))
}

/// The light that the text after the letter spells.
fn fail_of(text: &[u8]) -> Option<CertLine>
    ensures is { result ≡ option_map (λ j. CertLine.Fail j) (number_of 1 4 text.now) }
    ensures fits { IfSome result LineFits }
{
    let light = number(text, 1, 4)? as u8;
    Some(CertLine::Fail(light))
}

/// The line of a tree that a text spells.
fn tree_line(line: &[u8]) -> Option<CertLine>
    ensures is { result ≡ line_of line.now }
    ensures fits { IfSome result LineFits }
{
    match line {
        [b'd'] => Some(CertLine::Dear),
        [b'u'] => Some(CertLine::Undecided),
        [b'p'] => Some(CertLine::Pass),
        [b's', b' ', text @ ..] => split_of(text),
        [b'x', b' ', text @ ..] => limit_of(text),
        [b'f', b' ', text @ ..] => fail_of(text),
        _ => None,
    }
}

/// The line of a tree that a text without a line feed spells. `None` exactly where the text spells
/// no line.
pub fn read_line(line: &[u8]) -> Option<CertLine>
    ensures is { result ≡ line_of line.now }
    ensures fits { IfSome result LineFits }
    ensures found { IfSome result (λ x. line.now ≡ line_text x) }
    ensures none { IsNone result → (x : CertLine) → LineFits x → line.now ≡ line_text x → ⊥ }
{
    tree_line(line)
}

/// The recipe of `dims` dyes that a text spells.
fn recipe_line(line: &[u8], dims: usize) -> Option<Steps>
    requires some { 1 ≤ dims }
    requires few { dims ≤ 12 }
    ensures is { option_map (λ steps. steps.items) result ≡ recipe_of dims line.now }
    ensures length { IfSome result (λ steps. length steps.items ≡ dims) }
    ensures fits { IfSome result (λ steps. StepsFit steps.items) }
{
    let mut steps = Steps::new();
    let mut rest = line;
    for _ in 1..dims {
        let Some((word, tail)) = cut_at(b' ', rest) else {
            return None;
        };
        let Some(n) = number(word, 0, 4000) else {
            return None;
        };
        steps.push(n as u16);
        rest = tail;
    }
    let Some(last) = number(rest, 0, 4000) else {
        return None;
    };
    steps.push(last as u16);
    Some(steps)
}

/// The recipe of `dims` dyes that a text without a line feed spells. `None` exactly where the text
/// spells no such recipe.
pub fn read_recipe(line: &[u8], dims: usize) -> Option<Steps>
    requires some { 1 ≤ dims }
    requires few { dims ≤ 12 }
    ensures is { option_map (λ steps. steps.items) result ≡ recipe_of dims line.now }
    ensures length { IfSome result (λ steps. length steps.items ≡ dims) }
    ensures fits { IfSome result (λ steps. StepsFit steps.items) }
    ensures found { IfSome result (λ steps. line.now ≡ numbers_text steps.items) }
    ensures none { IsNone result → (steps : List ℕ) → length steps ≡ dims → StepsFit steps →
        line.now ≡ numbers_text steps → ⊥ }
{
    recipe_line(line, dims)
}

/// Appends the spelling of a line of a tree, without a line feed.
#[tactic(auto, unfolding(crate::specs::LineTexts::line_text))]
pub fn put_line(line: &CertLine, into: &mut ArrayVec<u8, 80>)
    requires fits { LineFits line.now }
    requires room { array_vec_len into.old + 64 ≤ 80 }
    ensures text { into.new.items ≡ into.old.items ++ line_text line.now }
    ensures short { array_vec_len into.new ≤ array_vec_len into.old + 64 }
{
    match *line {
        CertLine::Split { dye, mid } => {
            put_letter(b's', u16::from(dye), into);
            into.push(b' ');
            put_small(mid, into);
        }
        CertLine::Limit(limit) => put_letter(b'x', u16::from(limit), into),
        CertLine::Fail(light) => put_letter(b'f', u16::from(light), into),
        CertLine::Dear => into.push(b'd'),
        CertLine::Undecided => into.push(b'u'),
        CertLine::Pass => into.push(b'p'),
    }
}

/// Appends a letter, a space and a number of up to 4,000.
fn put_letter(letter: u8, number: u16, into: &mut ArrayVec<u8, 80>)
    requires small { number ≤ 4000 }
    requires room { array_vec_len into.old + 6 ≤ 80 }
    ensures text { into.new.items ≡ into.old.items ++ (letter ∷ 32 ∷ decimal number) }
    ensures short { array_vec_len into.new ≤ array_vec_len into.old + 6 }
{
    into.push(letter);
    into.push(b' ');
    put_small(number, into);
}

/// Appends the spelling of a recipe, without a line feed.
pub fn put_recipe(steps: &Steps, into: &mut ArrayVec<u8, 80>)
    requires some { 1 ≤ length steps.now.items }
    requires fits { StepsFit steps.now.items }
    requires room { array_vec_len into.old + 64 ≤ 80 }
    ensures text { into.new.items ≡ into.old.items ++ numbers_text steps.now.items }
    ensures short { array_vec_len into.new ≤ array_vec_len into.old + 64 }
{
    for (i, n) in steps.iter().enumerate() {
        if i > 0 {
            into.push(b' ');
        }
        put_small(*n, into);
    }
}
