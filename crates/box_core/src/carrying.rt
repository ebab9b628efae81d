//! What is evaluated once for a box and serves its halves.

ghost use Rattle.std.specs.Prelude.{◌≡◌, ◌-◌, true};
ghost use Rattle.box_specs.specs.Landscape.{judgement};
ghost use Rattle.box_specs.specs.Span.{IsInside, Span};
ghost use Rattle.box_specs.specs.Validity.{splits};
ghost use Rattle.box_core.specs.Cuts.{half_of};
ghost use Rattle.box_core.specs.Meter.{CountsOne};

use crate::landscape::Landscape;
use crate::part::BoxR;
use box_specs::Judged;

/// A landscape that holds a value for a box, from which the box is judged, and from which the
/// values for its halves are made. One that carries nothing holds an empty value. No call allocates
/// memory.
pub trait Carrying: Landscape {
    /// What is held for a box.
    type Held: Drop;

    // a held value stands for a box
    ghost stands: { Self → Self.Held → Span → Type 0 };

    /// The held value of a box, evaluated afresh.
    fn hold(&self, part: &BoxR, meter: &mut Self::Meter) -> Self::Held
        requires { IsInside part.now (Self.land self.now).top }
        ensures stands { stands self.now result part.now }
        ensures fresh { CountsOne
            (Self.fresh_count self.now meter.old) (Self.fresh_count self.now meter.new) }
        ensures judged { Self.judged_count self.now meter.new
            ≡ Self.judged_count self.now meter.old };

    /// The held value of a half of a box, from that of the box: of the upper half, or of the lower
    /// one. The box is split after `mid` steps of the dye of this number, from 1.
    fn narrow(&self, held: &Self::Held, part: &BoxR, dye: u8, mid: u16, upper: bool) -> Self::Held
        requires stands { stands self.now held.now part.now }
        requires inside { IsInside part.now (Self.land self.now).top }
        requires split { splits part.now dye mid ≡ true }
        ensures { stands self.now result
            (half_of upper part.now (record { dye = dye - 1; mid = mid })) };

    /// What is known of a box, as `judge` says it, from its held value.
    fn judge_held(&self, held: &Self::Held, part: &BoxR, meter: &mut Self::Meter) -> Judged
        requires stands { stands self.now held.now part.now }
        requires inside { IsInside part.now (Self.land self.now).top }
        ensures is { result ≡ judgement (Self.land self.now) part.now }
        ensures judged { CountsOne
            (Self.judged_count self.now meter.old) (Self.judged_count self.now meter.new) }
        ensures fresh { Self.fresh_count self.now meter.new
            ≡ Self.fresh_count self.now meter.old };

    /// Whether a light fails on a box, as `fails` says it, from its held value.
    fn fails_held(&self, held: &Self::Held, light: u8, part: &BoxR, meter: &mut Self::Meter) -> bool
        requires stands { stands self.now held.now part.now }
        requires inside { IsInside part.now (Self.land self.now).top }
        ensures is { result ≡ (Self.land self.now).failing light part.now }
        ensures judged { CountsOne
            (Self.judged_count self.now meter.old) (Self.judged_count self.now meter.new) }
        ensures fresh { Self.fresh_count self.now meter.new
            ≡ Self.fresh_count self.now meter.old };
}
