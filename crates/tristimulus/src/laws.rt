//! The laws of the ratios. A call does nothing; what it ensures is the law.
ghost use Rattle.tristimulus.specs.Laws.{RatiosEnclose, RatiosInRange};

/// The law of [`ratios`](crate::ratios): those of a spectrum at a scale n enclose those of a
/// narrower one at each scale m * n.
pub fn ratios()
    ensures { RatiosEnclose }
{}

/// The range of [`ratios`](crate::ratios) at every scale: 0 to 3.
pub fn range()
    ensures { RatiosInRange }
{}
