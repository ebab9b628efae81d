//! The laws of enclosing: a result at a coarse scale encloses that of narrower inputs at a finer
//! scale. A call of the first two functions does nothing; what it ensures is the law.
ghost use Rattle.std.specs.Prelude.{◌≡◌, ℕ, ◌*◌, ◌<◌};
ghost use Rattle.interval_specs.specs.Encloses.{Encloses};
ghost use Rattle.cielab_bounds.specs.Cielab.{LabEnds};
ghost use Rattle.cielab_bounds.specs.Formula.{IsColour};
ghost use Rattle.cielab_bounds.specs.Lab.{lab_ends};
ghost use Rattle.cielab_bounds.specs.Laws.{EnclosesLab, FEncloses, LabEncloses};

use crate::coordinates::Lab;
use crate::difference::Difference;
use fix_bounds::{Iv, Scale};

/// The law of [`f_iv`](crate::f_iv): each end may lie on either part of f, the cube root or the
/// linear one, at the coarse scale and at the fine one.
pub fn f_iv()
    ensures { FEncloses }
{}

/// The law of [`lab`](crate::lab).
pub fn lab()
    ensures { LabEncloses }
{}

/// The difference of a sample from a standard, with the law of every [`Difference`]: it encloses
/// the value, at each finer scale, of every standard and sample that these enclose.
pub fn difference<S: Scale, D: Difference<S>>(rule: &D, standard: &Lab<S>, sample: &Lab<S>) -> Iv<S>
    ensures is { result
        ≡ D.value rule.now S.unit (lab_ends standard.now) (lab_ends sample.now) }
    ensures finer { (m : ℕ) (p q : LabEnds) → 0 < m
        → IsColour (m * S.unit) p → IsColour (m * S.unit) q
        → EnclosesLab m (lab_ends standard.now) p → EnclosesLab m (lab_ends sample.now) q
        → Encloses m result (D.value rule.now (m * S.unit) p q) }
{
    let kept = rule.keep(standard);
    rule.delta(&kept, sample)
}
