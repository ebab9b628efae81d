//! The names of curves.

ghost use Rattle.std.specs.Prelude.{◌≡◌};
ghost use Rattle.std.specs.List.{list_all};
ghost use Rattle.spectral_tables.specs.Name.{is_name, is_name_byte};

fn has_name_bytes(text: &[u8]) -> bool
    ensures { result ≡ list_all is_name_byte text.now }
{
    text.iter()
        .all(|b| (0x20..=0x7e).contains(b) && *b != b',' && *b != b'"')
}

/// Whether the bytes are the name of a curve.
pub fn is_name(text: &[u8]) -> bool
    ensures { result ≡ is_name text.now }
{
    1 <= text.len() && text.len() <= 32 && has_name_bytes(text)
}
