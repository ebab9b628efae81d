//! The dyes of a job, drawn at random, and the hidden recipe that makes the standard.

ghost use Rattle.std.specs.Prelude.{◌≡◌, ◌≤◌, ◌<◌, All, length};
ghost use Rattle.demo_jobs.specs.Dyes.{IsDrawn, drawn_dye, drawn_dyes, hidden_recipe, hidden_steps};

use crate::draws::draw;
use arrayvec::ArrayVec;

/// How many dyes a job has.
pub(crate) const DYES: usize = 6;

/// A dye that was drawn.
#[derive(Debug, Clone, Copy, Default, Drop)]
pub(crate) struct DrawnDye {
    /// Its number, from 1.
    pub(crate) number: u32,
    /// The index of the wavelength that it absorbs most.
    pub(crate) centre: u32,
    /// How strongly it absorbs at that wavelength, less 5 (see `strength`).
    pub(crate) height: u32,
    /// What a unit of it costs.
    pub(crate) price: u32,
    /// What it costs to use any of it.
    pub(crate) fee: u32,
}

/// The dye at an index, from its four draws.
fn drawn_dye(draws: &[u32], index: usize) -> DrawnDye
    requires draws { length draws.now ≡ 30 }
    requires index { index < 6 }
    ensures is { result ≡ drawn_dye draws.now index }
    ensures range { IsDrawn result }
{
    let first = 4 * index;
    DrawnDye {
        number: index as u32 + 1,
        centre: 5 * index as u32 + 2 + draw(draws, first, 4),
        height: 200 + draw(draws, first + 1, 200),
        price: 20 + draw(draws, first + 2, 80),
        fee: draw(draws, first + 3, 2000),
    }
}

/// The dyes of a job.
#[tactic(auto, unfolding(crate::specs::Dyes::drawn_dyes))]
pub(crate) fn drawn_dyes(draws: &[u32]) -> ArrayVec<DrawnDye, DYES>
    requires { length draws.now ≡ 30 }
    ensures is { result.items ≡ drawn_dyes draws.now }
    ensures range { All IsDrawn result.items }
    ensures count { length result.items ≡ 6 }
{
    let mut dyes = ArrayVec::new();
    for index in 0..DYES {
        dyes.push(drawn_dye(draws, index));
    }
    dyes
}

/// The steps of the dye at an index in the hidden recipe: of dyes 1 and 2, of 3 and 4, and of 5 and
/// 6 one is drawn and has 20 to 119 steps, and the other has none.
fn hidden_steps(draws: &[u32], index: usize) -> u16
    requires draws { length draws.now ≡ 30 }
    requires index { index < 6 }
    ensures is { result ≡ hidden_steps draws.now index }
    ensures few { result ≤ 400 }
{
    let first = 24 + index / 2 * 2;
    if draw(draws, first, 2) as usize == index % 2 {
        20 + draw(draws, first + 1, 100) as u16
    } else {
        0
    }
}

/// The recipe that makes the standard.
#[tactic(auto, unfolding(crate::specs::Dyes::hidden_recipe))]
pub(crate) fn hidden_recipe(draws: &[u32]) -> ArrayVec<u16, DYES>
    requires { length draws.now ≡ 30 }
    ensures is { result.items ≡ hidden_recipe draws.now }
    ensures few { All (λ n. n ≤ 400) result.items }
    ensures count { length result.items ≡ 6 }
{
    let mut steps = ArrayVec::new();
    for index in 0..DYES {
        steps.push(hidden_steps(draws, index));
    }
    steps
}
