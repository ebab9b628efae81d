//! Records of a table file, field by field.

ghost use Rattle.std.specs.Prelude.{◌≡◌, ◌≤◌, ◌<◌, ◌++◌, ◌∷◌, OnOk};
ghost use Rattle.demo_jobs.specs.Lines.{number_field, wavelength_field};

use arrayvec::ArrayVec;
use dec_text::put_fixed;
use std::alloc::AllocError;

/// The digits of a number that is given in units of its last decimal place.
pub(crate) fn number_field(decimals: u8, number: u32) -> ArrayVec<u8, 64>
    requires { decimals ≤ 12 }
    ensures { result.items ≡ number_field decimals number }
{
    let mut digits = ArrayVec::new();
    put_fixed(i128::from(number), decimals, &mut digits);
    digits
}

/// The field of a wavelength, in nanometres, from its index.
pub(crate) fn wavelength_field(index: u32) -> ArrayVec<u8, 64>
    requires { index < 31 }
    ensures { result.items ≡ wavelength_field index }
{
    number_field(0, 400 + 10 * index)
}

/// Appends a comma and a field.
pub(crate) fn push_field(text: &mut Vec<u8>, field: &[u8]) -> Result<(), AllocError>
    ensures { OnOk result (text.new.items ≡ text.old.items ++ 44 ∷ field.now) }
{
    text.push(b',')?;
    text.extend_from_slice(field)
}
