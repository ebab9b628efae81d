//! The magnitude of a decimal number, in units of the last decimal place that it may have.

ghost use Rattle.std.specs.Prelude.{◌≡◌, ◌+◌, ◌*◌, ◌≤◌, min};
ghost use Rattle.dec_text.specs.Decimal.{digits_from, magnitude_of, has_more, largest};

/// The greatest magnitude that is accepted.
pub(crate) const LARGEST: u64 = 1_000_000_000_000_000;

/// Where counting stops: every greater magnitude is counted as this.
const STOP: u64 = LARGEST + 1;

/// The number that is written by the digits of `before` followed by these, at most `STOP`.
pub(crate) fn append_digits(before: u64, part: &[u8]) -> u64
    requires { before ≤ largest + 1 }
    ensures { result ≡ min (largest + 1) (digits_from before part.now) }
{
    let mut number = before;
    for digit in part {
        number = (10 * number + u64::from(digit.saturating_sub(b'0'))).min(STOP);
    }
    number
}

/// The magnitude of the number with these digits before and after the point, at most `LARGEST +
/// 1`.
pub(crate) fn magnitude(decimals: usize, whole: &[u8], fraction: &[u8]) -> u64
    requires { decimals ≤ 6 }
    ensures { result ≡ min (largest + 1) (magnitude_of decimals whole.now fraction.now) }
{
    let written = decimals.min(fraction.len());
    let digits = append_digits(append_digits(0, whole), &fraction[..written]);
    let power = 10u128.pow((decimals - written) as u32);
    (u128::from(digits) * power).min(u128::from(STOP)) as u64
}

/// Whether a digit other than 0 follows this many decimals.
pub(crate) fn more(decimals: usize, fraction: &[u8]) -> bool
    ensures { result ≡ has_more decimals fraction.now }
{
    fraction.iter().skip(decimals).any(|digit| *digit != b'0')
}
