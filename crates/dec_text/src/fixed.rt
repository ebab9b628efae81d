//! Printing numbers with a fixed number of decimals.

ghost use Rattle.std.specs.Prelude.{◌≡◌, ℕ, ◌+◌, ◌*◌, ◌^◌, ◌≤◌, ◌++◌, length, decimal, unsigned_abs};
ghost use Rattle.arrayvec.specs.ArrayVec.{array_vec_len};
ghost use Rattle.dec_text.specs.FixedPoint.{fixed_text, unsigned_text, last_digits, pair_text};

use arrayvec::ArrayVec;
use itoa::Buffer;

/// Appends the number as in `-0.125`: a `-` where it is below zero, the whole part, and where there
/// are decimals, a point and `decimals` digits. `value` counts units of the last decimal place.
pub fn put_fixed(value: i128, decimals: u8, into: &mut ArrayVec<u8, 64>)
    requires few { decimals ≤ 12 }
    requires magnitude { unsigned_abs value ≤ 10 ^ 30 }
    requires room { array_vec_len into.old + 48 ≤ 64 }
    ensures text { into.new.items ≡ into.old.items ++ fixed_text decimals value }
    ensures short { array_vec_len into.new ≤ array_vec_len into.old + 45 }
{
    put_signed(value, decimals, into);
}

/// Appends both ends of an enclosure with 12 decimals each, as in `0.250000000000..0.250000000001`.
#[tactic(auto, unfolding(crate::specs::FixedPoint::pair_text))]
pub fn put_pair(lo: i128, hi: i128, into: &mut ArrayVec<u8, 128>)
    requires lo_magnitude { unsigned_abs lo ≤ 10 ^ 30 }
    requires hi_magnitude { unsigned_abs hi ≤ 10 ^ 30 }
    requires room { array_vec_len into.old + 96 ≤ 128 }
    ensures text { into.new.items ≡ into.old.items ++ pair_text lo hi }
    ensures short { array_vec_len into.new ≤ array_vec_len into.old + 92 }
{
    put_signed(lo, 12, into);
    into.push(b'.');
    into.push(b'.');
    put_signed(hi, 12, into);
}

/// Appends a number that is counted in units of its last decimal place.
fn put_signed<const N: usize>(value: i128, decimals: u8, into: &mut ArrayVec<u8, N>)
    requires few { decimals ≤ 12 }
    requires magnitude { unsigned_abs value ≤ 10 ^ 30 }
    requires room { array_vec_len into.old + 45 ≤ N }
    ensures text { into.new.items ≡ into.old.items ++ fixed_text decimals value }
    ensures short { array_vec_len into.new ≤ array_vec_len into.old + 45 }
{
    if value < 0 {
        into.push(b'-');
    }
    put_unsigned(value.unsigned_abs(), decimals, into);
}

/// Appends a magnitude that is counted in units of its last decimal place.
fn put_unsigned<const N: usize>(magnitude: u128, decimals: u8, into: &mut ArrayVec<u8, N>)
    requires few { decimals ≤ 12 }
    requires magnitude { magnitude ≤ 10 ^ 30 }
    requires room { array_vec_len into.old + 44 ≤ N }
    ensures text { into.new.items ≡ into.old.items ++ unsigned_text decimals magnitude }
    ensures short { array_vec_len into.new ≤ array_vec_len into.old + 44 }
{
    put_whole(magnitude / 10u128.pow(u32::from(decimals)), into);
    if decimals > 0 {
        into.push(b'.');
        put_last_digits(magnitude, decimals, into);
    }
}

/// Appends the digits before the point.
fn put_whole<const N: usize>(whole: u128, into: &mut ArrayVec<u8, N>)
    requires magnitude { whole ≤ 10 ^ 30 }
    requires room { array_vec_len into.old + 31 ≤ N }
    ensures text { into.new.items ≡ into.old.items ++ decimal whole }
    ensures short { array_vec_len into.new ≤ array_vec_len into.old + 31 }
{
    let mut buffer = Buffer::new();
    put_bytes(buffer.format(whole).as_bytes(), into);
}

fn put_bytes<const N: usize>(bytes: &[u8], into: &mut ArrayVec<u8, N>)
    requires { array_vec_len into.old + length bytes.now ≤ N }
    ensures text { into.new.items ≡ into.old.items ++ bytes.now }
    ensures len { array_vec_len into.new ≡ array_vec_len into.old + length bytes.now }
{
    into.try_extend_from_slice(bytes).unwrap();
}

/// Appends the last `count` digits of a number.
fn put_last_digits<const N: usize>(number: u128, count: u8, into: &mut ArrayVec<u8, N>)
    requires few { count ≤ 12 }
    requires room { array_vec_len into.old + count ≤ N }
    ensures text { into.new.items ≡ into.old.items ++ last_digits count number }
    ensures len { array_vec_len into.new ≡ array_vec_len into.old + count }
{
    for left in (0..count).rev() {
        into.push(b'0' + (number / 10u128.pow(u32::from(left)) % 10) as u8);
    }
}
