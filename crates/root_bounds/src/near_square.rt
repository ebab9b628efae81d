//! A guess at a square root. Nothing is proved of it: its caller tests the guess.

use crate::tables::SQUARE_RECIPROCALS;
use crate::words::low_word;

/// A guess at the square root rounded down. It is meant to be exact or one less, as for whole
/// squares; this is not proved.
#[inline(always)]
pub(crate) fn near_square_root(x: u128) -> u64 {
    let upper = low_word(x >> 64);
    if upper >= 0x10_0000 {
        return near_long_root(x);
    }
    // a root of at most 42 bits
    let word = if upper == 0 {
        low_word(x)
    } else {
        low_word(x >> 20)
    };
    let shift = (word | 1).leading_zeros() & 62;
    let root = Near::of(word.wrapping_shl(shift))
        .root
        .wrapping_shr(shift / 2);
    if upper == 0 { root >> 32 } else { root >> 22 }
}

/// A guess at the square root, rounded down, of a number of more than 84 bits.
#[inline(always)]
fn near_long_root(x: u128) -> u64 {
    let shift = x.leading_zeros() & 62;
    let scaled = x.wrapping_shl(shift);
    let Near { root, reciprocal } = Near::of(low_word(scaled >> 64));
    // the remainder over twice the root
    let square = u128::from(root).wrapping_mul(u128::from(root));
    let left = low_word(scaled.wrapping_sub(square) >> 49);
    let more = left.wrapping_mul(reciprocal) >> 47;
    root.wrapping_add(more).wrapping_shr(shift / 2)
}

/// The numbers `2^64 sqrt(v)` and `2^31 / sqrt(v)`, where v lies from 1/4 to 1 (or is 0, and then
/// only the root counts). Both are a little too small: the root by at most 2^-46 of its value, the
/// reciprocal by 2^-23 of its own.
#[derive(Clone, Copy)]
struct Near {
    root: u64,
    reciprocal: u64,
}

impl Near {
    /// The root and its reciprocal from `head`, which is 2^64 v. A parabola approximates the
    /// reciprocal, and one step of Newton's method, r + (v - r^2) / (2 r), improves the root r.
    #[inline(always)]
    fn of(head: u64) -> Near {
        let upper = head >> 32;
        let &[value, slope, bend] = &SQUARE_RECIPROCALS[((upper >> 24) as usize).saturating_sub(
            64,
        )];
        let offset = upper & 0xFF_FFFF;
        let slope = u64::from(slope).wrapping_sub(u64::from(bend).wrapping_mul(offset) >> 30);
        let reciprocal = u64::from(value).wrapping_sub(slope.wrapping_mul(offset) >> 30);
        let leading = upper.wrapping_mul(reciprocal) >> 31;
        let rest = head.wrapping_sub(leading.wrapping_mul(leading));
        let correction = (rest >> 10).wrapping_mul(reciprocal) >> 22;
        let root = leading.wrapping_shl(32).wrapping_add(correction);
        Near { root, reciprocal }
    }
}
