//! The parts of a decimal text.

ghost use Rattle.std.specs.Prelude.{◌≡◌, ◌+◌, ◌<◌, ◌≤◌, ◌^◌, ◌==◌, not, length, drop, position, IfSome};
ghost use Rattle.dec_text.specs.Decimal.{sign_len, is_blank, point_of, is_digit, stray_from};

/// How many bytes the sign has: 1, or 0 where there is none.
pub(crate) fn sign_of(text: &[u8]) -> usize
    ensures is { result ≡ sign_len text.now }
    ensures bound { result ≤ length text.now }
{
    match text {
        [b'+' | b'-', ..] => 1,
        _ => 0,
    }
}

/// Whether nothing follows the sign, or only a point.
pub(crate) fn blank(body: &[u8]) -> bool
    ensures { result ≡ is_blank body.now }
{
    matches!(body, [] | [b'.'])
}

/// The offset of the first point, or the length.
pub(crate) fn point(body: &[u8]) -> usize
    ensures is { result ≡ point_of body.now }
    ensures bound { result ≤ length body.now }
{
    first_point(body).unwrap_or(body.len())
}

fn first_point(body: &[u8]) -> Option<usize>
    ensures is { result ≡ position (λ b. b == 46) body.now }
    ensures bound { IfSome result (λ k. k < length body.now) }
{
    body.iter().position(|b| *b == b'.')
}

/// The bytes after the first point.
pub(crate) fn after_point(body: &[u8], point: usize) -> &[u8]
    ensures { result.now ≡ drop (point + 1) body.now }
{
    if point < body.len() {
        &body[point + 1..]
    } else {
        &[]
    }
}

/// The offset of the first byte that is no digit, in a part that begins at the offset `start`.
pub(crate) fn stray(part: &[u8], start: usize) -> Option<usize>
    requires { start + length part.now < 2 ^ 64 }
    ensures { result ≡ stray_from start part.now }
{
    first_stray(part).map(|offset| start + offset)
}

fn first_stray(part: &[u8]) -> Option<usize>
    ensures is { result ≡ position (λ b. not (is_digit b)) part.now }
    ensures bound { IfSome result (λ k. k < length part.now) }
{
    part.iter().position(|b| !b.is_ascii_digit())
}
