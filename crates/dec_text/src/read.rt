//! Reading a decimal number.

ghost use Rattle.std.specs.Prelude.{◌≡◌, ◌+◌, ◌<◌, ◌≤◌, ◌^◌, length};
ghost use Rattle.dec_text.specs.Decimal.{is_minus, decimal_of, body_value, number_of};

use crate::body::{after_point, blank, point, sign_of, stray};
use crate::fault::DecFault;
use crate::magnitude::{LARGEST, magnitude, more};

/// The number that the text writes with up to `decimals` decimals, counted in units of the last
/// decimal place that it may have: with 4 decimals `-12.5` is -125,000. The text may begin with one
/// `+` or `-`, the digits before or after the point may be missing (not both), and zeros after the
/// last decimal place are ignored.
///
/// The error is the first of these that applies: nothing, or nothing but a sign, a point or both
/// ([`DecFault::Empty`]), a byte after the sign that is neither a digit nor the first point
/// ([`DecFault::NotDigit`]), a digit other than 0 after the last decimal place
/// ([`DecFault::TooManyPlaces`]), a magnitude above 10^15 ([`DecFault::TooLarge`]).
#[tactic(auto, unfolding(crate::specs::Decimal::decimal_of))]
pub fn read_decimal(text: &[u8], decimals: u8) -> Result<i64, DecFault>
    requires { decimals ≤ 6 }
    ensures { result ≡ decimal_of decimals text.now }
{
    let sign = sign_of(text);
    value(
        &text[sign..],
        usize::from(decimals),
        matches!(text, [b'-', ..]),
        sign,
    )
}

/// The number that `body`, the text after a sign of `sign` bytes, writes.
#[tactic(auto, unfolding(crate::specs::Decimal::body_value))]
fn value(body: &[u8], decimals: usize, minus: bool, sign: usize) -> Result<i64, DecFault>
    requires few { decimals ≤ 6 }
    requires room { sign + length body.now < 2 ^ 63 }
    ensures { result ≡ body_value decimals minus sign body.now }
{
    if blank(body) {
        return Err(DecFault::Empty);
    }
    let point = point(body);
    let whole = &body[..point];
    let fraction = after_point(body, point);
    if let Some(offset) = stray(whole, sign) {
        return Err(DecFault::NotDigit(offset));
    }
    if let Some(offset) = stray(fraction, sign + point + 1) {
        return Err(DecFault::NotDigit(offset));
    }
    number(whole, fraction, decimals, minus)
}

/// The number with these digits before and after its point.
#[tactic(auto, unfolding(crate::specs::Decimal::number_of))]
fn number(whole: &[u8], fraction: &[u8], decimals: usize, minus: bool) -> Result<i64, DecFault>
    requires { decimals ≤ 6 }
    ensures { result ≡ number_of decimals minus whole.now fraction.now }
{
    if more(decimals, fraction) {
        return Err(DecFault::TooManyPlaces);
    }
    let magnitude = magnitude(decimals, whole, fraction);
    if magnitude > LARGEST {
        return Err(DecFault::TooLarge);
    }
    let magnitude = magnitude as i64;
    Ok(if minus { -magnitude } else { magnitude })
}
