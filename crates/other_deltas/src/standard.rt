ghost use Rattle.std.specs.Prelude.{◌≡◌, ⊤, ℕ, ◌*◌};
ghost use Rattle.interval_specs.specs.Ranges.{MagnitudeUpTo, UpTo, AtLeast};

use fix_bounds::{Iv, Scale};
use std::alloc::AllocError;

/// The values that are computed once for a standard: its L, a, b and chroma, the weights S_C and
/// S_H, and the square of S_H.
#[derive(Copy)]
pub struct Standard94<S: Scale> {
    pub l1: Iv<S>,
    pub a1: Iv<S>,
    pub b1: Iv<S>,
    pub c1: Iv<S>,
    pub sc: Iv<S>,
    pub sh: Iv<S>,
    pub sh_square: Iv<S>,
    pub ghost l1_range: { MagnitudeUpTo (1000 * S.unit) l1 },
    pub ghost a1_range: { MagnitudeUpTo (1000 * S.unit) a1 },
    pub ghost b1_range: { MagnitudeUpTo (1000 * S.unit) b1 },
    pub ghost c1_range: { UpTo (1415 * S.unit) c1 },
    pub ghost sc_range: { UpTo (70 * S.unit) sc },
    pub ghost sc_least: { AtLeast 1 1 S.unit sc },
    pub ghost square_range: { UpTo (4900 * S.unit) sh_square },
    pub ghost square_least: { AtLeast 1 2 S.unit sh_square },
}

impl<S: Scale> Clone for Standard94<S> {
    ghost is_clone = { λ standard copy. copy ≡ standard };

    ghost is_infallible = { λ _. ⊤ };

    fn clone(&self) -> Result<Self, AllocError> {
        Ok(*self)
    }
}
