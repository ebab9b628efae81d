ghost use Rattle.std.specs.Prelude.{◌≡◌, ℕ, ℤ, pos, ◌*◌, ◌^◌, ◌≤◌, ◌<ℤ◌, ◌≤ℤ◌};
ghost use Rattle.interval_specs.specs.Ranges.{UpTo};

use fix_bounds::{Iv, Scale, unit};
use std::alloc::{AllocError, Global};

/// How many pairs are drawn.
const COUNT: u32 = 1000;

/// Two intervals above 0 and up to 1 and a few parts of the scale, as the operands of an operation,
/// and the K/S of a colour.
#[derive(Drop)]
pub(crate) struct Pair<S: Scale> {
    pub(crate) first: Iv<S>,
    pub(crate) second: Iv<S>,
    pub(crate) strength: Iv<S>,
    ghost first_range: { UpTo (2 ^ 41) first },
    ghost first_magnitude: { first.hi ≤ℤ pos (10 * S.unit) },
    ghost second_range: { UpTo (2 ^ 41) second },
    ghost divisor: { pos 0 <ℤ second.lo },
    ghost strength_range: { UpTo (31 * S.unit) strength },
}

/// An interval from the bits of `state`: its lower end is between 0 and 1, and its width is at most
/// seven parts of the scale.
fn interval<S: Scale>(state: u64) -> Iv<S>
    ensures range { UpTo (2 ^ 41) result }
    ensures magnitude { result.hi ≤ℤ pos (10 * S.unit) }
    ensures positive { pos 0 <ℤ result.lo }
{
    let low = 1 + (state / 0x100_0000) % unit::<S>();
    let high = low + state % 8;
    Iv::of_ends(i128::from(low), i128::from(high))
}

/// A K/S from the bits of `state`: its lower end is between 0 and 30, and its width is at most
/// seven parts of the scale.
fn strength<S: Scale>(state: u64) -> Iv<S>
    ensures { UpTo (31 * S.unit) result }
{
    let low = (state / 0x1_0000) % (30 * unit::<S>());
    let high = low + state % 8;
    Iv::of_ends(i128::from(low), i128::from(high))
}

/// The next state of a linear congruential generator.
fn next(state: u64) -> u64 {
    state
        .wrapping_mul(6_364_136_223_846_793_005)
        .wrapping_add(1_442_695_040_888_963_407)
}

/// The pairs that all operations are timed on.
pub(crate) fn drawn<S: Scale>(alloc: Global) -> Result<Vec<Pair<S>>, AllocError> {
    let mut pairs = Vec::new(alloc);
    let mut state = 1;
    for _ in 0..COUNT {
        let first = next(state);
        state = next(first);
        pairs.push(Pair {
            first: interval(first),
            second: interval(state),
            strength: strength(first),
        })?;
    }
    Ok(pairs)
}
