//! The laws of enclosing: a result at a coarse scale encloses that of narrower inputs at a finer
//! scale. A call does nothing; what it ensures is the law.
ghost use Rattle.std.specs.Prelude.{ℕ};
ghost use Rattle.cmc_specs.specs.Laws.{CmcEncloses, StandardEncloses};

/// The law of the values of a standard: each keeps enclosing, whether its lightness is below 16 or
/// not, whether its hue lies from 164 to 345 degrees or not, and where the intervals leave that
/// open.
pub fn keep()
    ensures { StandardEncloses }
{}

/// The law of [`delta`](crate::delta), at any two weights.
pub fn delta()
    ensures { (l10 c10 : ℕ) → CmcEncloses l10 c10 }
{}
