//! Guesses at the value of a calibration. Nothing is proved of them: a wrong one costs a division.

/// A guess at the value at 2^24 units.
pub(crate) fn near_slope(numerator: u128, denominator: u64) -> u64 {
    low_word(numerator.wrapping_shl(24) / u128::from(denominator.max(1)))
}

/// A guess at the value at these units, from that at 2^24 units.
#[inline(always)]
pub(crate) fn near_value(slope: u64, units: u32) -> u64 {
    low_word(u128::from(slope).wrapping_mul(u128::from(units)) >> 24)
}

/// A guess at 2^64 over a distance.
pub(crate) fn near_inverse(distance: u32) -> u64 {
    0xFFFF_FFFF_FFFF_FFFF / u64::from(distance.max(1))
}

/// A guess at a number of up to 64 bits over a distance, from that at 2^64 over it.
#[inline(always)]
pub(crate) fn near_share(x: u128, inverse: u64) -> u64 {
    low_word(u128::from(low_word(x)) * u128::from(inverse) >> 64)
}

/// The lower 64 bits.
#[inline(always)]
fn low_word(x: u128) -> u64 {
    (x & 0xFFFF_FFFF_FFFF_FFFF) as u64
}
