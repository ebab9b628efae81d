//! `xyz`: the tristimulus ratios of one column under a light.

ghost use Rattle.dye_run.specs.Xyz.{xyz_evaluations};

use crate::colour::curve_ratios;
use crate::coordinates::Coordinates;
use crate::lines::three_lines;
use spectral_tables::{Curve, Weights};
use std::alloc::{AllocError, Global};

/// X/Xn, Y/Yn and Z/Zn.
#[derive(Clone, Copy)]
pub(crate) struct Xyz;

impl Coordinates for Xyz {
    ghost evaluations = { λ _. xyz_evaluations };

    fn text(self, alloc: Global, weights: &Weights, curve: &Curve) -> Result<Vec<u8>, AllocError> {
        let ratios = curve_ratios(weights, curve);
        three_lines(
            alloc,
            ("X/Xn", ratios.x),
            ("Y/Yn", ratios.y),
            ("Z/Zn", ratios.z),
        )
    }
}
