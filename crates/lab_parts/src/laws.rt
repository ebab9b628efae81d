//! The laws of enclosing: a result at a coarse scale encloses that of narrower inputs at a finer
//! scale. A call does nothing; what it ensures is the law.
ghost use Rattle.lab_parts.specs.Laws.{ChromaDifferenceEncloses, ChromaEncloses, HueDifferenceEncloses, LengthEncloses};

/// The law of [`chroma`](crate::chroma).
pub fn chroma()
    ensures { ChromaEncloses }
{}

/// The law of [`chroma_difference`](crate::chroma_difference).
pub fn chroma_difference()
    ensures { ChromaDifferenceEncloses }
{}

/// The law of [`hue_difference_square`](crate::hue_difference_square).
pub fn hue_difference_square()
    ensures { HueDifferenceEncloses }
{}

/// The law of [`length`](crate::length), for squares of the hue's term that are not below 0.
pub fn length()
    ensures { LengthEncloses }
{}
