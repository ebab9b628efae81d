//! Quotients by the unit of a scale; of numbers from 2^64 on by a guess and a test.
ghost use Rattle.std.specs.Prelude.{◌≡◌, ◌*◌, ◌/◌, ◌^◌, ◌<◌, ◌≤◌, ℕ};
ghost use Rattle.std.specs.Int.{div_ceil};

use fix_bounds::{Scale, unit};
use ks_curves::quotient;

/// The quotient of `z` by the unit of a scale, rounded down.
#[inline(always)]
pub(crate) fn over_unit<S: Scale>(z: u128) -> u128
    ensures { result ≡ z / S.unit }
{
    let parts = unit::<S>();
    if z < 0x1_0000_0000_0000_0000 {
        u128::from(z as u64 / parts)
    } else {
        quotient(z, parts, near_over_unit::<S>(z))
    }
}

/// The same, rounded up.
#[inline(always)]
pub(crate) fn over_unit_up<S: Scale>(z: u128) -> u128
    requires { z < 2 ^ 127 }
    ensures { result ≡ div_ceil z S.unit }
{
    over_unit::<S>(z + u128::from(unit::<S>() - 1))
}

/// A guess at the quotient of `z` by the unit. It is meant to be the quotient or one less, for a
/// `z` of at most 54 bits more than the unit, but nothing is proved of it.
#[inline(always)]
pub(crate) fn near_over_unit<S: Scale>(z: u128) -> u64 {
    let parts = unit::<S>();
    let bits = 64u32.wrapping_sub(parts.leading_zeros());
    let inverse = low_word(1u128.wrapping_shl(bits.wrapping_add(63)) / u128::from(parts));
    let head = low_word(z.wrapping_shr(bits.wrapping_sub(10)));
    low_word(u128::from(head).wrapping_mul(u128::from(inverse)) >> 64) >> 9
}

/// The lower 64 bits.
#[inline(always)]
fn low_word(x: u128) -> u64 {
    (x & 0xFFFF_FFFF_FFFF_FFFF) as u64
}
