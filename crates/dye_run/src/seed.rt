ghost use Rattle.std.specs.Prelude.{◌≤◌};

/// The number of a generated job.
#[derive(Clone, Copy)]
pub(crate) struct Seed {
    pub number: u32,
    ghost most: { number ≤ 999999 },
}
