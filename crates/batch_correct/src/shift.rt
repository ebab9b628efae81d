//! The limits of a recipe that is added to a bath.

ghost use Rattle.std.specs.Prelude.{◌≡◌};
ghost use Rattle.price_grid.specs.Limits.{limits_view};
ghost use Rattle.batch_correct.specs.Shift.{with_new_bath};

use arrayvec::ArrayVec;
use price_grid::{Limits, Steps, copy_of};

/// A copy of the pairs.
fn copy_of_pairs(pairs: &ArrayVec<(u8, u8), 66>) -> ArrayVec<(u8, u8), 66>
    ensures { result.items ≡ pairs.now.items }
{
    let mut copy = ArrayVec::new();
    for pair in pairs.as_slice() {
        copy.push(*pair);
    }
    copy
}

/// The same limits, for a bath with these steps of each dye.
pub fn shift_limits(limits: &Limits, bath: &Steps) -> Limits
    ensures { limits_view result ≡ with_new_bath (limits_view limits.now) bath.now.items }
{
    Limits {
        max_dyes: limits.max_dyes,
        max_total: limits.max_total,
        max_cost: limits.max_cost,
        pairs: copy_of_pairs(&limits.pairs),
        bath: copy_of(bath),
    }
}
