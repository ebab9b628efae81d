//! A recipe with the values that a report shows of it.

ghost use Rattle.std.specs.Prelude.{◌≡◌, length};

use arrayvec::ArrayVec;
use fix_bounds::Base;
use metamerism::{Deltas, Verdict};
use price_grid::Steps;

/// A recipe with the values that a report shows of it.
#[derive(Drop)]
pub struct Shown {
    /// The steps of each dye, in the order of the job.
    pub steps: Steps,
    /// Its cost, in cost units.
    pub cost: u64,
    /// Its differences under the lights, in the order of the job.
    pub deltas: Deltas<Base>,
    /// The verdict on each of these differences by itself. A failure has the number of its light.
    pub each: ArrayVec<Verdict, 4>,
    /// The verdict on all lights.
    pub whole: Verdict,
    pub ghost counts: { length each.items ≡ length deltas.each.items },
}
