//! Fields without the spaces and tabs around them.

ghost use Rattle.std.specs.Prelude.{◌≡◌};
ghost use Rattle.spectral_tables.specs.Trim.{trim_start, trim_end, trimmed};

#[tactic(auto, unfolding(crate::specs::Trim::trim_start))]
fn without_start(field: &[u8]) -> &[u8]
    ensures { result.now ≡ trim_start field.now }
{
    let mut rest = field;
    while let [b' ' | b'\t', after @ ..] = rest {
        rest = after;
    }
    rest
}

#[tactic(auto, unfolding(crate::specs::Trim::trim_start, crate::specs::Trim::trim_end))]
fn without_end(field: &[u8]) -> &[u8]
    ensures { result.now ≡ trim_end field.now }
{
    let mut rest = field;
    while let [before @ .., b' ' | b'\t'] = rest {
        rest = before;
    }
    rest
}

pub(crate) fn trimmed(field: &[u8]) -> &[u8]
    ensures { result.now ≡ trimmed field.now }
{
    without_end(without_start(field))
}
