//! A guess at a cube root. Nothing is proved of it: its caller tests the guess.

use crate::tables::CUBE_RECIPROCALS;
use crate::words::{high_product, low_word};

/// A guess at the cube root rounded down. It is meant to be exact or one less, as for whole cubes;
/// this is not proved.
#[inline(always)]
pub(crate) fn near_cube_root(x: u128) -> u64 {
    // x is v * 8^third with v from 1/8 to 1, or 0 where x is 0
    let third = (130 - (x | 1).leading_zeros()) / 3;
    near_root(head_of(x, 3 * third)).wrapping_shr(64_u32.wrapping_sub(third))
}

/// 2^64 v, where x is 2^bits v.
fn head_of(x: u128, bits: u32) -> u64 {
    if bits >= 64 {
        low_word(x.wrapping_shr(bits - 64))
    } else {
        low_word(x.wrapping_shl(64 - bits))
    }
}

/// The cube root of v times 2^64, where `head` is 2^64 v and v lies from 1/8 to 1: it is too small
/// by at most about 2^-53 of its value. A cubic approximates the reciprocal of the root, and one
/// step of Newton's method, r + (v - r^3) / (3 r^2), improves the root r.
#[inline(always)]
fn near_root(head: u64) -> u64 {
    let upper = head >> 32;
    let &[value, slope, bend, turn] = &CUBE_RECIPROCALS[((upper >> 24) as usize).saturating_sub(
        32,
    )];
    let offset = upper & 0xFF_FFFF;
    let bend = u64::from(bend).wrapping_sub(u64::from(turn).wrapping_mul(offset) >> 29);
    let slope = u64::from(slope).wrapping_sub(bend.wrapping_mul(offset) >> 30);
    let reciprocal = u64::from(value).wrapping_sub(slope.wrapping_mul(offset) >> 30);
    let squared = reciprocal.wrapping_mul(reciprocal) >> 31;
    let leading = upper.wrapping_mul(squared) >> 31;
    let cube = high_product(leading.wrapping_mul(leading), leading.wrapping_shl(32));
    let rest = head.wrapping_sub(cube);
    let correction = ((rest >> 6).wrapping_mul(squared) >> 25) / 3;
    leading.wrapping_shl(32).wrapping_add(correction)
}
