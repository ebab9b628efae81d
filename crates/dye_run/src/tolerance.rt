ghost use Rattle.std.specs.Prelude.{◌≤◌};

/// A tolerance in thousandths, 0 to 100,000: a difference of up to 100.
#[derive(Clone, Copy)]
pub(crate) struct Tolerance {
    pub thousandths: u32,
    ghost most: { thousandths ≤ 100000 },
}
