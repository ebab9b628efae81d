//! Numbers in a text.

ghost use Rattle.std.specs.Prelude.{◌≡◌, ◌≤◌, ◌++◌, OnOk, decimal, pos};
ghost use Rattle.dec_text.specs.FixedPoint.{fixed_text, pair_text};
ghost use Rattle.shade_report.specs.Outcomes.{count_line};

use arrayvec::ArrayVec;
use dec_text::{put_fixed, put_pair};
use fix_bounds::{Base, Iv};
use itoa::Buffer;
use std::alloc::AllocError;

/// Appends a word and a number.
pub(crate) fn push_count(text: &mut Vec<u8>, word: &str, count: u64) -> Result<(), AllocError>
    ensures { OnOk result (text.new.items ≡ text.old.items ++ (word.now ++ decimal count)) }
{
    text.extend_from_slice(word.as_bytes())?;
    text.extend_from_slice(Buffer::new().format(count).as_bytes())?;
    Ok(())
}

/// Appends a line of a word and a number.
pub(crate) fn push_line(text: &mut Vec<u8>, word: &str, count: u64) -> Result<(), AllocError>
    ensures { OnOk result (text.new.items ≡ text.old.items ++ count_line word.now count) }
{
    push_count(text, word, count)?;
    text.push(b'\n')?;
    Ok(())
}

/// Appends a word and a number that is given in units of its last decimal place.
pub(crate) fn push_fixed(
    text: &mut Vec<u8>,
    word: &str,
    number: u64,
    decimals: u8,
) -> Result<(), AllocError>
    requires { decimals ≤ 12 }
    ensures { OnOk result (text.new.items ≡ text.old.items
        ++ (word.now ++ fixed_text decimals (pos number))) }
{
    let mut digits = ArrayVec::new();
    put_fixed(i128::from(number), decimals, &mut digits);
    text.extend_from_slice(word.as_bytes())?;
    text.extend_from_slice(&digits)?;
    Ok(())
}

/// Appends a word and both ends of an enclosure.
pub(crate) fn push_ends(
    text: &mut Vec<u8>,
    word: &str,
    enclosure: Iv<Base>,
) -> Result<(), AllocError>
    ensures { OnOk result (text.new.items ≡ text.old.items
        ++ (word.now ++ pair_text enclosure.lo enclosure.hi)) }
{
    let mut ends = ArrayVec::new();
    put_pair(enclosure.lo(), enclosure.hi(), &mut ends);
    text.extend_from_slice(word.as_bytes())?;
    text.extend_from_slice(&ends)?;
    Ok(())
}
