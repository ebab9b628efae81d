//! A box that waits.

use box_core::Carried;

/// A box that waits to be judged, with what is held for it, and the index of its node.
#[derive(Drop)]
pub(crate) struct Waiting<H> {
    pub carried: Carried<H>,
    pub node: u32,
}
