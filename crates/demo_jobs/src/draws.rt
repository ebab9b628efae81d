//! The pseudo-random numbers that a job is made from.

ghost use Rattle.std.specs.Prelude.{◌≡◌, ◌<◌, length};
ghost use Rattle.demo_jobs.specs.Draws.{draw, drawn, draws, next_state};

use arrayvec::ArrayVec;

/// How many draws a job takes: four for each dye, and two for each dye of the hidden recipe.
pub(crate) const DRAWS: usize = 30;

/// The next state of the generator.
#[tactic(auto, unfolding(crate::specs::Draws::next_state))]
fn next_state(state: u64) -> u64
    ensures { result ≡ next_state state }
{
    state
        .wrapping_mul(6_364_136_223_846_793_005)
        .wrapping_add(1_442_695_040_888_963_407)
}

/// The number drawn from a state: its upper 31 bits.
#[tactic(auto, unfolding(crate::specs::Draws::drawn))]
fn drawn(state: u64) -> u32
    ensures { result ≡ drawn state }
{
    (state >> 33) as u32
}

/// The draws for the job with a number, in order.
#[tactic(auto, unfolding(crate::specs::Draws::draws))]
pub(crate) fn draws(number: u32) -> ArrayVec<u32, DRAWS>
    ensures is { result.items ≡ draws number }
    ensures count { length result.items ≡ 30 }
{
    let mut draws = ArrayVec::new();
    let mut state = u64::from(number);
    for _ in 0..DRAWS {
        state = next_state(state);
        draws.push(drawn(state));
    }
    draws
}

/// The draw at an index, reduced to a number below `n`.
pub(crate) fn draw(draws: &[u32], index: usize, n: u32) -> u32
    requires index { index < length draws.now }
    requires some { 0 < n }
    ensures is { result ≡ draw draws.now index n }
    ensures small { result < n }
{
    draws[index] % n
}
