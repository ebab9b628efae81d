//! Reading a whole number of a few digits.

ghost use Rattle.std.specs.Prelude.{◌≡◌, ◌+◌, ◌<◌, ◌≤◌, ◌^◌, IfSome, length};
ghost use Rattle.std.specs.List.{list_all};
ghost use Rattle.dec_text.specs.Decimal.{is_digit};
ghost use Rattle.dec_text.specs.Whole.{whole_number};

use crate::magnitude::append_digits;

fn are_digits(text: &[u8]) -> bool
    ensures { result ≡ list_all is_digit text.now }
{
    text.iter().all(|b| b.is_ascii_digit())
}

/// The number that a text of 1 to `most` ASCII digits writes, or `None` for every other text: a
/// sign, a point or a blank is refused. Leading zeros are allowed, and count as digits.
#[tactic(auto, unfolding(crate::specs::Whole::whole_number))]
pub fn read_whole(text: &[u8], most: usize) -> Option<u32>
    requires { most ≤ 9 }
    ensures is { result ≡ whole_number most text.now }
    ensures small { IfSome result (λ n. n < 10 ^ most) }
{
    if text.is_empty() || most < text.len() || !are_digits(text) {
        return None;
    }
    Some(append_digits(0, text) as u32)
}
