//! One light.

ghost use Rattle.std.specs.Prelude.{◌≡◌, ◌≤◌, length};
ghost use Rattle.cielab_bounds.specs.Lab.{lab_ends};
ghost use Rattle.metamerism.specs.Kept.{first_weights_or};

use crate::correction::Correction;
use cielab_bounds::{Difference, Lab};
use fix_bounds::Scale;
use spectral_tables::Weights;

/// A light under which samples are compared with a standard: its weights, the greatest difference
/// that passes, in thousandths, the formula of the difference, and the colour of the standard with
/// the values that the formula computes from it in advance. Under a corrected light, samples are
/// corrected by their ratios under the first light.
#[derive(Drop)]
pub struct Light<S: Scale, D: Difference<S>> {
    pub weights: Weights,
    pub tolerance: u32,
    pub rule: D,
    pub standard: Lab<S>,
    pub kept: D::Kept,
    pub(crate) correction: Option<Correction<S>>,
    pub ghost small: { tolerance ≤ 100000 },
    pub ghost stands: { ∥ D.stands_for rule kept (lab_ends standard) ∥₁ },
    pub ghost paired: { length (first_weights_or weights correction).weights ≡ length weights.weights },
}
