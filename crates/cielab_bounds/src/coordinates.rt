ghost use Rattle.std.specs.Prelude.{◌≡◌, ℕ, ◌*◌, ⊤};
ghost use Rattle.interval_specs.specs.Ranges.{MagnitudeUpTo};

use fix_bounds::{Iv, Scale};
use std::alloc::AllocError;

/// A colour: its lightness L, and a (red to green) and b (yellow to blue).
#[derive(Copy)]
pub struct Lab<S: Scale> {
    pub l: Iv<S>,
    pub a: Iv<S>,
    pub b: Iv<S>,
    pub ghost l_range: { MagnitudeUpTo (1000 * S.unit) l },
    pub ghost a_range: { MagnitudeUpTo (1000 * S.unit) a },
    pub ghost b_range: { MagnitudeUpTo (1000 * S.unit) b },
}

impl<S: Scale> Clone for Lab<S> {
    ghost is_clone = { λ colour copy. copy ≡ colour };

    ghost is_infallible = { λ _. ⊤ };

    fn clone(&self) -> Result<Self, AllocError> {
        Ok(*self)
    }
}
