/// The only error of the calls of a shelf or a sink: the call failed, and its count of failures has
/// risen, or is `u64::MAX`.
#[derive(Clone, Copy, Debug, PartialEq, Eq)]
pub struct Failed;
