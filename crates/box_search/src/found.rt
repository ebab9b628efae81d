//! How a search ends.

use box_core::CertLine;
use price_grid::Steps;

/// How a search for passing recipes ends.
#[derive(Clone, Copy, Debug, PartialEq, Eq)]
pub enum End {
    /// As many are found as were wanted.
    Enough,
    /// There are fewer, and every box is judged.
    Exhausted,
    /// The budget is spent, and the lower corner of the next box costs this.
    Stopped(u64),
}

/// What a search for passing recipes ends with: how many boxes it judged, the passing recipes and
/// the undecided ones of these, each in their order, and the lines of the tree.
#[derive(Drop)]
pub struct Found {
    pub end: End,
    pub boxes: u32,
    pub matched: Vec<Steps>,
    pub undecided: Vec<Steps>,
    pub lines: Vec<CertLine>,
}
