//! The law of each operation: its result encloses the one that it has at a finer scale on narrower
//! inputs. A call does nothing; what it ensures is the law.
ghost use Rattle.interval_specs.specs.Laws.{RatioEncloses, SumEncloses, DifferenceEncloses, ProductEncloses, QuotientEncloses, SquareEncloses, MultipleEncloses, FractionEncloses, AbsoluteEncloses, CutLowEncloses, CutHighEncloses, HullEncloses};

/// The law of [`Iv::of_ratio`](crate::Iv::of_ratio).
pub fn of_ratio()
    ensures { RatioEncloses }
{}

/// The law of [`Iv::add`](crate::Iv::add).
pub fn add()
    ensures { SumEncloses }
{}

/// The law of [`Iv::sub`](crate::Iv::sub).
pub fn sub()
    ensures { DifferenceEncloses }
{}

/// The law of [`Iv::mul`](crate::Iv::mul).
pub fn mul()
    ensures { ProductEncloses }
{}

/// The law of [`Iv::div`](crate::Iv::div).
pub fn div()
    ensures { QuotientEncloses }
{}

/// The law of [`Iv::square`](crate::Iv::square).
pub fn square()
    ensures { SquareEncloses }
{}

/// The law of [`Iv::scale_by`](crate::Iv::scale_by).
pub fn scale_by()
    ensures { MultipleEncloses }
{}

/// The law of [`Iv::ratio_up`](crate::Iv::ratio_up).
pub fn ratio_up()
    ensures { FractionEncloses }
{}

/// The law of [`Iv::abs`](crate::Iv::abs).
pub fn abs()
    ensures { AbsoluteEncloses }
{}

/// The law of [`Iv::cut_low`](crate::Iv::cut_low).
pub fn cut_low()
    ensures { CutLowEncloses }
{}

/// The law of [`Iv::cut_high`](crate::Iv::cut_high).
pub fn cut_high()
    ensures { CutHighEncloses }
{}

/// The law of [`Iv::hull`](crate::Iv::hull).
pub fn hull()
    ensures { HullEncloses }
{}
