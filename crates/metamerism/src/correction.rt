//! What a light keeps to correct samples by the first light.

use fix_bounds::{Ratios, Scale};
use spectral_tables::Weights;

/// What the ratios of samples under a light are corrected by: the weights of the first light, and
/// the ratios of the standard under them.
#[derive(Drop)]
pub(crate) struct Correction<S: Scale> {
    pub(crate) first: Weights,
    pub(crate) standard: Ratios<S>,
}
