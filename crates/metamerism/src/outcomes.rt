//! The results of a comparison under lights.

use arrayvec::ArrayVec;
use fix_bounds::{Iv, Scale};

/// The differences of a sample under the lights, in their order.
#[derive(Drop)]
pub struct Deltas<S: Scale> {
    pub each: ArrayVec<Iv<S>, 4>,
}

/// The verdict on a sample against the tolerances of the lights.
#[derive(Clone, Copy, Debug, PartialEq, Eq)]
pub enum Verdict {
    /// Under every light the upper end of the difference is within the tolerance.
    Pass,
    /// Under the light of this number, counted from 1, the lower end of the difference is above the
    /// tolerance. It is the first such light.
    Fail(u8),
    /// No light fails, but under at least one the tolerance is at least the lower end of the
    /// difference and below its upper end.
    Undecided,
}

/// The verdict of a default value: `Undecided`.
impl Default for Verdict {
    ghost use Rattle.std.specs.Prelude.{◌≡◌};
    ghost use Rattle.metamerism.specs.declared.outcomes.Verdict.TheVariants.{Undecided};

    ghost is_default = { λ v. v ≡ Undecided };

    fn default() -> Verdict {
        Verdict::Undecided
    }
}

impl Verdict {
    ghost use Rattle.std.specs.Prelude.{◌≡◌};
    ghost use Rattle.metamerism.specs.Verdicts.{is_certain_fail, joint};

    /// Is it certain that the sample fails? `None` if it is neither certain nor ruled out.
    pub(crate) fn certain_fail(self) -> Option<bool>
        ensures { result ≡ is_certain_fail self }
    {
        match self {
            Verdict::Pass => Some(false),
            Verdict::Fail(_) => Some(true),
            Verdict::Undecided => None,
        }
    }

    /// The verdict on two groups of lights together: `self` is that on the group with the lower
    /// numbers, and `after` that on the other.
    pub(crate) fn joint(self, after: Verdict) -> Verdict
        ensures { result ≡ joint self after }
    {
        match (self, after) {
            (Verdict::Pass, _) | (Verdict::Undecided, Verdict::Fail(_)) => after,
            (Verdict::Fail(_) | Verdict::Undecided, _) => self,
        }
    }
}
