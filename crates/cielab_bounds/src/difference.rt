ghost use Rattle.std.specs.Prelude.{◌≡◌, ℕ};
ghost use Rattle.interval_specs.specs.Ends.{Ends, IsHeld};
ghost use Rattle.cielab_bounds.specs.Cielab.{LabEnds};
ghost use Rattle.cielab_bounds.specs.Lab.{lab_ends};
ghost use Rattle.cielab_bounds.specs.Formula.{KeepsEnclosing};

use crate::coordinates::Lab;
use fix_bounds::{Iv, Scale};

/// What a colour difference means: a value for a standard and a sample, at every scale.
pub trait Formula: Drop {
    ghost value: { Self → ℕ → LabEnds → LabEnds → Ends };

    // the law of every difference: the value of narrower colours at a finer scale lies within that
    // at the coarse one
    ghost keeps_enclosing: { (x : Self) → KeepsEnclosing (value x) };
}

/// A colour difference that is computed at the scale `S`.
pub trait Difference<S: Scale>: Formula {
    /// What is computed once for a standard.
    type Kept: Drop;

    // the kept value is one that `keep` may return for this standard
    ghost stands_for: { Self → Self.Kept → LabEnds → Type 0 };

    /// Computes once what the differences of many samples from this standard need.
    fn keep(&self, standard: &Lab<S>) -> Self::Kept
        ensures { stands_for self.now result (lab_ends standard.now) };

    /// The difference of a sample from the standard that `kept` stands for.
    fn delta(&self, kept: &Self::Kept, sample: &Lab<S>) -> Iv<S>
        requires { ∥ ((p : LabEnds) × stands_for self.now kept.now p) ∥₁ }
        ensures is { (p : LabEnds) → stands_for self.now kept.now p
            → result ≡ Self.value self.now S.unit p (lab_ends sample.now) }
        ensures held { IsHeld result };
}
