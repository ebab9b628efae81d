//! Parts of 128-bit numbers, for the guesses at roots. Nothing is proved of them.

/// The lower 64 bits.
#[inline(always)]
pub(crate) fn low_word(x: u128) -> u64 {
    (x & 0xFFFF_FFFF_FFFF_FFFF) as u64
}

/// The upper 64 bits of a product.
#[inline(always)]
pub(crate) fn high_product(a: u64, b: u64) -> u64 {
    low_word(u128::from(a).wrapping_mul(u128::from(b)) >> 64)
}
