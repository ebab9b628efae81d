//! The fields of a record.

ghost use Rattle.std.specs.Prelude.{◌≡◌, map};
ghost use Rattle.spectral_tables.specs.Records.{begins_with, first_field};

/// Whether the first field is this text.
pub(crate) fn begins_with(fields: &[&[u8]], text: &[u8]) -> bool
    ensures { result ≡ begins_with text.now (map (λ f. f.now) fields.now) }
{
    match fields {
        [first, ..] => text == *first,
        [] => false,
    }
}

/// The first field, or no bytes.
pub(crate) fn first_field<'a>(fields: &[&'a [u8]]) -> &'a [u8]
    ensures { result.now ≡ first_field (map (λ f. f.now) fields.now) }
{
    match fields {
        [first, ..] => *first,
        [] => &[],
    }
}
