//! `lab`: the CIELAB coordinates of one column under a light.

ghost use Rattle.dye_run.specs.Lab.{lab_evaluations};

use crate::colour::colour;
use crate::coordinates::Coordinates;
use crate::lines::three_lines;
use spectral_tables::{Curve, Weights};
use std::alloc::{AllocError, Global};

/// L, a and b.
#[derive(Clone, Copy)]
pub(crate) struct Lab;

impl Coordinates for Lab {
    ghost evaluations = { λ _. lab_evaluations };

    fn text(self, alloc: Global, weights: &Weights, curve: &Curve) -> Result<Vec<u8>, AllocError> {
        let lab = colour(weights, curve);
        three_lines(alloc, ("L", lab.l), ("a", lab.a), ("b", lab.b))
    }
}
