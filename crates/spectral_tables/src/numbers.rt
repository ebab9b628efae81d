//! The numbers of a table.

ghost use Rattle.std.specs.Prelude.{◌≡◌, ℕ, ℤ, pos, ◌≤◌, IfSome};
ghost use Rattle.dec_text.specs.Decimal.{decimal_of};
ghost use Rattle.spectral_tables.specs.Numbers.{is_wavelength, natural_in, number_read};

use dec_text::read_decimal;

/// Whether the field writes this wavelength, in nanometres.
#[tactic(auto, unfolding(crate::specs::Numbers::is_wavelength))]
pub(crate) fn is_wavelength(field: &[u8], nm: u32) -> bool
    ensures { result ≡ is_wavelength nm field.now }
{
    match read_decimal(field, 0) {
        Ok(read) => read == i64::from(nm),
        Err(_) => false,
    }
}

/// The number that a field writes, in units of 10^-`decimals`, or `None` where it has a fault.
pub(crate) fn number(field: &[u8], decimals: u8) -> Option<i64>
    requires { decimals ≤ 6 }
    ensures { result ≡ number_read (decimal_of decimals field.now) }
{
    read_decimal(field, decimals).ok()
}

/// The number, if it lies in the range.
pub(crate) fn natural_in(number: i64, low: u32, high: u32) -> Option<u32>
    ensures is { result ≡ natural_in low high number }
    ensures range { IfSome result (λ n. (low ≤ n) × (n ≤ high)) }
{
    match u32::try_from(number) {
        Ok(n) if low <= n && n <= high => Some(n),
        _ => None,
    }
}
