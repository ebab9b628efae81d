ghost use Rattle.std.specs.Prelude.{◌≡◌, ◌++◌, IfOk, OnOk};
ghost use Rattle.run_core.specs.Answers.{line};

use arrayvec::ArrayVec;
use dec_text::put_pair;
use fix_bounds::{Base, Iv};
use std::alloc::{AllocError, Global};

/// Appends one line: a label, and both ends of an enclosure.
pub(crate) fn push_enclosure(
    text: &mut Vec<u8>,
    label: &str,
    enclosure: Iv<Base>,
) -> Result<(), AllocError>
    ensures { OnOk result (text.new.items ≡ text.old.items ++ line label.now enclosure) }
{
    let mut ends = ArrayVec::new();
    put_pair(enclosure.lo(), enclosure.hi(), &mut ends);
    text.extend_from_slice(label.as_bytes())?;
    text.push(b' ')?;
    text.extend_from_slice(&ends)?;
    text.push(b'\n')?;
    Ok(())
}

/// A text of three lines, each a label and an enclosure.
pub(crate) fn three_lines(
    alloc: Global,
    first: (&str, Iv<Base>),
    second: (&str, Iv<Base>),
    third: (&str, Iv<Base>),
) -> Result<Vec<u8>, AllocError>
    ensures { IfOk result (λ text. text.items ≡ line first.entry.0.now first.entry.1
        ++ line second.entry.0.now second.entry.1 ++ line third.entry.0.now third.entry.1) }
{
    let mut text = Vec::new(alloc);
    push_enclosure(&mut text, first.0, first.1)?;
    push_enclosure(&mut text, second.0, second.1)?;
    push_enclosure(&mut text, third.0, third.1)?;
    Ok(text)
}
