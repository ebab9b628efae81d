//! Numbers in a certificate.

ghost use Rattle.std.specs.Prelude.{◌≡◌, ◌+◌, ◌≤◌, ◌^◌, ◌++◌, ◌<◌, IfSome, decimal, length, min, option_map};
ghost use Rattle.std.specs.List.{list_all, position};
ghost use Rattle.arrayvec.specs.ArrayVec.{array_vec_len};
ghost use Rattle.dec_text.specs.Decimal.{digits_from, is_digit, largest};
ghost use Rattle.box_cert.specs.Lines.{cut_at, is_mark};
ghost use Rattle.box_cert.specs.Numbers.{is_plain, number_of};

use arrayvec::ArrayVec;
use itoa::Buffer;

/// The cap on a number that is read: every greater one is read as this.
const STOP: u64 = 1_000_000_000_000_001;

/// Whether there is at least one byte, and no 0 in front of another byte.
fn is_plain(word: &[u8]) -> bool
    ensures { result ≡ is_plain word.now }
{
    match word {
        [] => false,
        [_] => true,
        [first, ..] => *first != b'0',
    }
}

fn are_digits(word: &[u8]) -> bool
    ensures { result ≡ list_all is_digit word.now }
{
    word.iter().all(|b| b.is_ascii_digit())
}

/// The number that the digits spell, or `STOP` where that is less.
fn capped(word: &[u8]) -> u64
    ensures { result ≡ min (largest + 1) (digits_from 0 word.now) }
{
    let mut number = 0u64;
    for digit in word {
        number = (10 * number + u64::from(digit.saturating_sub(b'0'))).min(STOP);
    }
    number
}

/// The number that a word spells in digits, with no 0 in front of another, where it is `least` to
/// `most`.
#[tactic(auto, unfolding(crate::specs::Numbers::number_of))]
pub(crate) fn number(word: &[u8], least: u64, most: u64) -> Option<u64>
    requires { most ≤ 10 ^ 15 }
    ensures is { result ≡ number_of least most word.now }
    ensures range { IfSome result (λ n. (least ≤ n) × (n ≤ most)) }
{
    if !is_plain(word) || !are_digits(word) {
        return None;
    }
    let value = capped(word);
    if least <= value && value <= most {
        Some(value)
    } else {
        None
    }
}

/// The offset of the first byte `mark`.
fn first_mark(mark: u8, text: &[u8]) -> Option<usize>
    ensures is { result ≡ position (is_mark mark) text.now }
    ensures in_text { IfSome result (λ at. at < length text.now) }
{
    text.iter().position(|b| *b == mark)
}

/// The bytes before the first byte `mark`, and those after it; `None` where there is none.
pub(crate) fn cut_at(mark: u8, text: &[u8]) -> Option<(&[u8], &[u8])>
    ensures { option_map (λ r. (r.0.now, r.1.now)) result ≡ cut_at mark text.now }
{
    match first_mark(mark, text) {
        Some(at) => Some((&text[..at], &text[at + 1..])),
        None => None,
    }
}

/// Appends bytes.
pub(crate) fn put_bytes<const N: usize>(bytes: &[u8], into: &mut ArrayVec<u8, N>)
    requires { array_vec_len into.old + length bytes.now ≤ N }
    ensures text { into.new.items ≡ into.old.items ++ bytes.now }
    ensures len { array_vec_len into.new ≡ array_vec_len into.old + length bytes.now }
{
    into.try_extend_from_slice(bytes).unwrap();
}

/// Appends a number of up to 4,000.
pub(crate) fn put_small(number: u16, into: &mut ArrayVec<u8, 80>)
    requires small { number ≤ 4000 }
    requires room { array_vec_len into.old + 4 ≤ 80 }
    ensures text { into.new.items ≡ into.old.items ++ decimal number }
    ensures short { array_vec_len into.new ≤ array_vec_len into.old + 4 }
{
    let mut buffer = Buffer::new();
    put_bytes(buffer.format(number).as_bytes(), into);
}

/// Appends a number of up to 10^15.
pub(crate) fn put_number<const N: usize>(number: u64, into: &mut ArrayVec<u8, N>)
    requires small { number ≤ 10 ^ 15 }
    requires room { array_vec_len into.old + 16 ≤ N }
    ensures text { into.new.items ≡ into.old.items ++ decimal number }
    ensures short { array_vec_len into.new ≤ array_vec_len into.old + 16 }
{
    let mut buffer = Buffer::new();
    put_bytes(buffer.format(number).as_bytes(), into);
}
