ghost use Rattle.std.specs.Prelude.{◌≡◌, ℕ, ◌*◌};
ghost use Rattle.std.specs.Bool.{⊤};
ghost use Rattle.interval_specs.specs.Ranges.{UpTo};

use crate::interval::Iv;
use crate::scale::Scale;
use std::alloc::AllocError;

/// The tristimulus ratios X/Xn, Y/Yn and Z/Zn of a colour to the white of its light, each from 0 to
/// 3.
#[derive(Copy)]
pub struct Ratios<S: Scale> {
    pub x: Iv<S>,
    pub y: Iv<S>,
    pub z: Iv<S>,
    pub ghost x_range: { UpTo (3 * S.unit) x },
    pub ghost y_range: { UpTo (3 * S.unit) y },
    pub ghost z_range: { UpTo (3 * S.unit) z },
}

impl<S: Scale> Clone for Ratios<S> {
    ghost is_clone = { λ source copy. copy ≡ source };

    ghost is_infallible = { λ _. ⊤ };

    fn clone(&self) -> Result<Self, AllocError> {
        Ok(*self)
    }
}
