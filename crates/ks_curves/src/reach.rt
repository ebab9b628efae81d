//! Where on a broken line units lie. It depends on the units of the nodes alone, so it is found once
//! for all wavelengths. Nothing is proved of it: a wrong guess costs time.

/// A guess at a piece of a broken line: the index of the node that ends it, and 2^64 over its
/// length. Past the last node the index is the number of nodes.
#[derive(Clone, Copy, Default)]
pub(crate) struct Place {
    pub(crate) node: usize,
    pub(crate) inverse: u64,
}

/// Guesses at the pieces on which the ends of a range of units lie.
#[derive(Clone, Copy, Default)]
pub(crate) struct Reach {
    pub(crate) first: Place,
    pub(crate) last: Place,
}

/// Guesses at where an addition to a bath lies on the broken line of a dye. It helps to find the
/// addition at each wavelength; a wrong one only costs time.
#[derive(Clone, Copy, Default)]
pub struct Places {
    pub(crate) bath: Reach,
    pub(crate) sum: Reach,
}
