//! The laws of the reflectance and of mixing. A call does nothing; what it ensures is the law.
ghost use Rattle.mix_model.specs.Laws.{BaseEncloses, LineStrength, MixtureEncloses, MixtureNarrows, QuickIsNear, ReflectanceEncloses, ReflectanceNarrows, WeakReflects};

/// [`reflect`](crate::reflect) keeps enclosing where the scale grows and its K/S narrows.
pub fn reflect_in_scale()
    ensures { ReflectanceEncloses }
{}

/// [`reflect`](crate::reflect) of a range of K/S encloses that of any range within it.
pub fn reflect_in_range()
    ensures { ReflectanceNarrows }
{}

/// [`BaseCurve::of`](crate::BaseCurve::of) keeps enclosing where the scale grows.
pub fn base()
    ensures { BaseEncloses }
{}

/// [`mix`](crate::mix) and [`mix_doses`](crate::mix_doses) keep enclosing where the scale grows.
pub fn mix_in_scale()
    ensures { MixtureEncloses }
{}

/// [`mix`](crate::mix) over ranges of steps encloses that over any ranges within them, and so that
/// of each recipe. So does [`mix_doses`](crate::mix_doses) over ranges of units.
pub fn mix_in_range()
    ensures { MixtureNarrows }
{}

/// What lies within a mixture for which [`is_too_strong`](crate::is_too_strong) is false can be
/// mixed at the scale 10^12.
pub fn weak()
    ensures { WeakReflects }
{}

/// Of dyes with straight lines [`is_too_strong`](crate::is_too_strong) depends on the most steps of
/// each alone.
pub fn line_strength()
    ensures { LineStrength }
{}

/// At each wavelength the upper end of K/S at the scale 10^8 is less than 1 above that at 10^12, of
/// the sums as of q. So what can be mixed at 10^12 with a K/S of at most 10^6 can be mixed at 10^8.
pub fn quick_scale()
    ensures { QuickIsNear }
{}
