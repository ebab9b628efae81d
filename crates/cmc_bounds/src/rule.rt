ghost use Rattle.std.specs.Prelude.{◌≡◌, ⊤, ℕ, ◌<◌, ◌≤◌};

use std::alloc::AllocError;

/// The rule CMC(l:c) by its weights l of lightness and c of chroma, in tenths, each from 1 to 100.
/// CMC(2:1) has 20 and 10.
#[derive(Copy)]
pub struct Cmc {
    pub l10: u8,
    pub c10: u8,
    pub ghost l_least: { 0 < l10 },
    pub ghost l_most: { l10 ≤ 100 },
    pub ghost c_least: { 0 < c10 },
    pub ghost c_most: { c10 ≤ 100 },
}

impl Clone for Cmc {
    ghost is_clone = { λ rule copy. copy ≡ rule };

    ghost is_infallible = { λ _. ⊤ };

    fn clone(&self) -> Result<Self, AllocError> {
        Ok(*self)
    }
}
