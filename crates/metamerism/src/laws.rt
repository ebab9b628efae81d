//! The laws of differences and verdicts. A call does nothing; what it ensures is the law.
ghost use Rattle.metamerism.specs.Laws.{ColourInRange, CorrectedEnclose, CorrectedInRange, EnclosesFiner, EnclosesNarrower, VerdictIsTrue, VerdictStays};

use cielab_bounds::Formula;

/// The range of the colour of a spectrum under a light, at every scale.
pub fn colour()
    ensures { ColourInRange }
{}

/// The range of corrected ratios, and their law: they enclose those of narrower ratios, at the same
/// scale and at each finer one.
pub fn corrected_ratios()
    ensures range { CorrectedInRange }
    ensures encloses { CorrectedEnclose }
{}

/// The law of the difference under a light by any formula, corrected or not: from scale 10^6 on, it
/// encloses that of narrower spectra at each finer scale.
pub fn finer<D: Formula>(rule: &D)
    ensures { EnclosesFiner (D.value rule.now) }
{}

/// The same where the spectra narrow at one scale.
pub fn narrower<D: Formula>(rule: &D)
    ensures { EnclosesNarrower (D.value rule.now) }
{}

/// What the result of [`verdict`](crate::verdict) says of the differences under the lights.
pub fn verdict()
    ensures { VerdictIsTrue }
{}

/// A pass or a fail by [`judge_light`](crate::judge_light) stays one at every finer scale, where
/// the difference encloses the one at that scale.
pub fn judge_light()
    ensures { VerdictStays }
{}
