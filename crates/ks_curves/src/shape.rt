//! What a dye stores of its calibration.

use crate::broken::BrokenLine;
use crate::slope::Slope;

/// The shape of a calibration.
#[derive(Drop)]
pub(crate) enum Shape {
    Straight(Slope),
    Broken(BrokenLine),
}
