//! The laws of costs, keys and limits. A call does nothing; what it ensures is the law.
ghost use Rattle.price_grid.specs.Laws.{CostGrows, ExcludedIsBroken, KeysAreOrdered, KeysDiffer, SingleIsBroken};

/// The law of [`cost`](crate::cost).
pub fn cost()
    ensures { CostGrows }
{}

/// The laws of [`compare`](crate::compare).
pub fn compare()
    ensures ordered { KeysAreOrdered }
    ensures different { KeysDiffer }
{}

/// The laws of [`excludes`](crate::excludes).
pub fn excludes()
    ensures broken { ExcludedIsBroken }
    ensures single { SingleIsBroken }
{}
