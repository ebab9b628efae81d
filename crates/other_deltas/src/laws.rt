//! The laws of enclosing: a result at a coarse scale encloses that of narrower inputs at a finer
//! scale. A call does nothing; what it ensures is the law.
ghost use Rattle.delta_specs.specs.Cie94.{Application};
ghost use Rattle.delta_specs.specs.Laws.{Cie94Encloses, Standard94Encloses};

/// The law of the values of a standard, for any constants.
pub fn keep()
    ensures { (x : Application) → Standard94Encloses x }
{}

/// The law of [`delta`](crate::delta), for any constants.
pub fn delta()
    ensures { (x : Application) → Cie94Encloses x }
{}
