//! Recipes as words of the command line.

ghost use Rattle.std.specs.Prelude.{◌≡◌, ◌<◌, ◌≤◌, ◌∷◌, List, length, None, IsNone, IfSome, option_map};
ghost use Rattle.std.specs.List.{position, slice_split};
ghost use Rattle.price_grid.specs.declared.dye_cost.DyeCost.{DyeCost};
ghost use Rattle.price_grid.specs.Grid.{IsRecipe};
ghost use Rattle.price_grid.specs.Words.{is_comma, remaining_parts, steps_of_dye, steps_of_texts, steps_of_word};

use crate::dye_cost::DyeCost;
use crate::grid::{Grid, Steps};
use dec_text::read_whole;

fn first_comma(text: &[u8]) -> Option<usize>
    ensures is { result ≡ position is_comma text.now }
    ensures bound { IfSome result (λ at. at < length text.now) }
{
    text.iter().position(|b| *b == b',')
}

/// The text before the first comma, and the text after it, if there is one.
fn first_part(text: &[u8]) -> (&[u8], Option<&[u8]>)
    ensures { slice_split is_comma text.now
        ≡ result.0.now ∷ remaining_parts (option_map (λ rest. rest.now) result.1) }
{
    match first_comma(text) {
        Some(at) => (&text[..at], Some(&text[at + 1..])),
        None => (text, None),
    }
}

/// The steps that a text spells for a dye.
fn steps_of_dye(dye: &DyeCost, text: &[u8]) -> Option<u16>
    ensures { result ≡ steps_of_dye dye.now text.now }
{
    let number = read_whole(text, 4)?;
    if number <= u32::from(dye.most) {
        Some(number as u16)
    } else {
        None
    }
}

/// The steps that the first part of a text spells for a dye, and the text after it, if there is
/// one.
fn next_steps<'a>(dye: &DyeCost, text: &'a [u8]) -> Option<(u16, Option<&'a [u8]>)>
    ensures none { IsNone result → (dyes : List DyeCost) →
        steps_of_texts (dye.now ∷ dyes) (slice_split is_comma text.now) ≡ None }
    ensures some { IfSome result (λ r. (dyes : List DyeCost) →
        steps_of_texts (dye.now ∷ dyes) (slice_split is_comma text.now)
        ≡ option_map (λ more. r.0 ∷ more)
        (steps_of_texts dyes (remaining_parts (option_map (λ t. t.now) r.1)))) }
    ensures small { IfSome result (λ r. r.0 ≤ dye.now.most) }
{
    let (part, following) = first_part(text);
    match steps_of_dye(dye, part) {
        Some(n) => Some((n, following)),
        None => None,
    }
}

/// The recipe that a word spells for these dyes.
fn steps_of_word(dyes: &[DyeCost], word: &[u8]) -> Option<Steps>
    requires { length dyes.now ≤ 12 }
    ensures is { option_map (λ steps. steps.items) result ≡ steps_of_word dyes.now word.now }
    ensures recipe { IfSome result (λ steps. IsRecipe dyes.now steps.items) }
{
    let mut steps = Steps::new();
    let mut rest = Some(word);
    for dye in dyes {
        let Some(text) = rest else {
            return None;
        };
        let Some((n, following)) = next_steps(dye, text) else {
            return None;
        };
        steps.push(n);
        rest = following;
    }
    match rest {
        None => Some(steps),
        Some(_) => None,
    }
}

/// The recipe that a word spells: for each dye a number of one to four digits, up to the most steps
/// of the dye, with commas between the numbers. `None` where it spells none.
pub fn read_steps(grid: &Grid, word: &[u8]) -> Option<Steps>
    ensures is { option_map (λ steps. steps.items) result ≡ steps_of_word grid.now word.now }
    ensures recipe { IfSome result (λ steps. IsRecipe grid.now steps.items) }
{
    steps_of_word(grid.dyes.as_slice(), word)
}
