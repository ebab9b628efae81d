ghost use Rattle.std.specs.Prelude.{◌≡◌, ◌≤◌};
ghost use Rattle.other_deltas.specs.Kinds.{application_of};

/// What colours are compared for, which decides the constants of CIE94.
#[derive(Clone, Copy, Debug, PartialEq, Eq)]
pub enum Kind94 {
    /// Textiles: half the difference of lightness counts, K1 is 0.048 and K2 0.014.
    Textile,
    /// Graphic arts: the whole difference of lightness counts, K1 is 0.045 and K2 0.015.
    Graphic,
}

impl Kind94 {
    /// Does only half the difference of lightness count?
    pub(crate) fn is_halved(self) -> bool
        ensures { result ≡ (application_of self).halved }
    {
        match self {
            Kind94::Textile => true,
            Kind94::Graphic => false,
        }
    }

    /// K1, the constant of S_C, in thousandths.
    pub(crate) fn k1(self) -> u64
        ensures is { result ≡ (application_of self).k1 }
        ensures few { result ≤ 48 }
    {
        match self {
            Kind94::Textile => 48,
            Kind94::Graphic => 45,
        }
    }

    /// K2, the constant of S_H, in thousandths.
    pub(crate) fn k2(self) -> u64
        ensures is { result ≡ (application_of self).k2 }
        ensures few { result ≤ 48 }
    {
        match self {
            Kind94::Textile => 14,
            Kind94::Graphic => 15,
        }
    }
}
