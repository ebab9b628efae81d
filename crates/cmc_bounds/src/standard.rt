ghost use Rattle.std.specs.Prelude.{◌≡◌, ⊤, ℕ, ◌*◌};
ghost use Rattle.interval_specs.specs.Ranges.{MagnitudeUpTo, UpTo, AtLeast};

use fix_bounds::{Iv, Scale};
use std::alloc::AllocError;

/// The values that are computed once for a standard: its L, a, b and chroma, and the weights S_L,
/// S_C and S_H.
#[derive(Copy)]
pub struct Standard<S: Scale> {
    pub l1: Iv<S>,
    pub a1: Iv<S>,
    pub b1: Iv<S>,
    pub c1: Iv<S>,
    pub sl: Iv<S>,
    pub sc: Iv<S>,
    pub sh: Iv<S>,
    pub ghost l1_range: { MagnitudeUpTo (1000 * S.unit) l1 },
    pub ghost a1_range: { MagnitudeUpTo (1000 * S.unit) a1 },
    pub ghost b1_range: { MagnitudeUpTo (1000 * S.unit) b1 },
    pub ghost c1_range: { UpTo (1415 * S.unit) c1 },
    pub ghost sl_range: { UpTo (3 * S.unit) sl },
    pub ghost sl_least: { AtLeast 51 100 S.unit sl },
    pub ghost sc_range: { UpTo (6 * S.unit) sc },
    pub ghost sc_least: { AtLeast 637 1000 S.unit sc },
    pub ghost sh_range: { UpTo (6 * S.unit) sh },
    pub ghost sh_least: { AtLeast 22 100 S.unit sh },
}

impl<S: Scale> Clone for Standard<S> {
    ghost is_clone = { λ standard copy. copy ≡ standard };

    ghost is_infallible = { λ _. ⊤ };

    fn clone(&self) -> Result<Self, AllocError> {
        Ok(*self)
    }
}
