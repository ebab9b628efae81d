//! The laws of K/S and of a contribution. A call does nothing; what it ensures is the law.
ghost use Rattle.ks_curves.specs.Laws.{AdditionAlone, AdditionEncloses, AdditionNarrows, ContributionEncloses, ContributionNarrows, ContributionNotNegative, KsEncloses, ValueEncloses, ValueNarrows, ValueNotNegative};

/// [`ks`](crate::ks) keeps enclosing where the scale grows.
pub fn ks()
    ensures { KsEncloses }
{}

/// [`contribution_units`](crate::contribution_units) and
/// [`contribution_range`](crate::contribution_range) keep enclosing where the scale grows.
pub fn contribution_in_scale()
    ensures units { ValueEncloses }
    ensures steps { ContributionEncloses }
{}

/// Over a range of units or steps they enclose that over any range within it.
pub fn contribution_in_range()
    ensures units { ValueNarrows }
    ensures steps { ContributionNarrows }
{}

/// They are never below 0.
pub fn contribution_not_negative()
    ensures units { ValueNotNegative }
    ensures steps { ContributionNotNegative }
{}

/// [`addition_units`](crate::addition_units) keeps enclosing where the scale grows.
pub fn addition_in_scale()
    ensures { AdditionEncloses }
{}

/// [`addition_units`](crate::addition_units) over a range of units encloses that over any range
/// within it, onto the same bath.
pub fn addition_in_range()
    ensures { AdditionNarrows }
{}

/// [`addition_units`](crate::addition_units) where no dye is on the cloth is
/// [`contribution_units`](crate::contribution_units).
pub fn addition_alone()
    ensures { AdditionAlone }
{}
