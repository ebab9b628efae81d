use crate::kind::Kind94;

/// The rule CIE94 for one kind of application.
#[derive(Clone, Copy, Debug, PartialEq, Eq)]
pub struct Cie94 {
    pub kind: Kind94,
}
