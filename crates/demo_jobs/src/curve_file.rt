//! The text of the curve file.

ghost use Rattle.std.specs.Prelude.{◌≡◌, ◌<◌, ◌++◌, ◌∷◌, All, IfOk, OnOk, codes, length};
ghost use Rattle.std.specs.Map.{keys_of};
ghost use Rattle.demo_jobs.specs.CurveText.{book_of, curve_record, curve_text};
ghost use Rattle.demo_jobs.specs.Lines.{line};

use crate::cloths::WAVES;
use crate::line::{number_field, push_field, wavelength_field};
use spectral_tables::Curve;
use std::alloc::{AllocError, Global};

/// Appends the header: `nm` and the names.
fn push_header(text: &mut Vec<u8>, book: &[(String, Curve)]) -> Result<(), AllocError>
    ensures { OnOk result (text.new.items
        ≡ text.old.items ++ line (codes "nm" ∷ keys_of (book_of book.now))) }
{
    text.extend_from_slice(b"nm")?;
    for (name, _) in book {
        push_field(text, name.as_bytes())?;
    }
    text.push(b'\n')?;
    Ok(())
}

/// Appends the record of a wavelength: its field, and the reflectance of each curve in percent.
#[tactic(auto, unfolding(crate::specs::CurveText::curve_record))]
fn push_record(text: &mut Vec<u8>, book: &[(String, Curve)], index: u32) -> Result<(), AllocError>
    requires index { index < 31 }
    requires waves { All (λ e. length e.1 ≡ 31) book.now }
    ensures { OnOk result (text.new.items
        ≡ text.old.items ++ line (curve_record (book_of book.now) index)) }
{
    text.extend_from_slice(&wavelength_field(index))?;
    for (_, curve) in book {
        push_field(text, &number_field(4, curve.as_slice()[index as usize]))?;
    }
    text.push(b'\n')?;
    Ok(())
}

/// The text of the curve file with these curves.
#[tactic(auto, unfolding(crate::specs::CurveText::curve_text))]
pub(crate) fn curve_text(alloc: Global, book: &[(String, Curve)]) -> Result<Vec<u8>, AllocError>
    requires { All (λ e. length e.1 ≡ 31) book.now }
    ensures { IfOk result (λ text. text.items ≡ curve_text (book_of book.now)) }
{
    let mut text = Vec::new(alloc);
    push_header(&mut text, book)?;
    for index in 0..WAVES {
        push_record(&mut text, book, index)?;
    }
    Ok(text)
}
