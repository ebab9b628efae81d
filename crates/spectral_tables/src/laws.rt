//! The laws of spectra. A call does nothing; what it ensures is the law.
ghost use Rattle.spectral_tables.specs.Laws.{SpectrumEncloses, SpectrumInRange};

/// The law of [`Curve::spectrum`](crate::Curve::spectrum): the spectrum at a scale n encloses that
/// at each scale m * n.
pub fn spectrum()
    ensures { SpectrumEncloses }
{}

/// The range of [`Curve::spectrum`](crate::Curve::spectrum) at every scale: 0 to 1.
pub fn range()
    ensures { SpectrumInRange }
{}
