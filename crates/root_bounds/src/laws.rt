//! The law of each root: its result encloses the one that it has at a finer scale on a narrower
//! input. A call does nothing; what it ensures is the law.
ghost use Rattle.interval_specs.specs.Laws.{SqrtEncloses, CbrtEncloses};

/// The law of [`sqrt_iv`](crate::sqrt_iv).
pub fn sqrt_iv()
    ensures { SqrtEncloses }
{}

/// The law of [`cbrt_iv`](crate::cbrt_iv).
pub fn cbrt_iv()
    ensures { CbrtEncloses }
{}
