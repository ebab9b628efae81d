//! Boxes with what is held for them. Only the box of all recipes is evaluated afresh; each other
//! box is reached as a half of one that is held.

ghost use Rattle.std.specs.Prelude.{◌≡◌, ◌+◌, ◌-◌, ◌≤◌, ◌↔◌, IsNone, IfSome, true, false};
ghost use Rattle.box_specs.specs.declared.certificate.CertLine.TheVariants.{Split};
ghost use Rattle.box_specs.specs.Landscape.{IsSound};
ghost use Rattle.box_specs.specs.Span.{IsInside, is_single};
ghost use Rattle.box_specs.specs.Splits.{cut_of, lower_half, upper_half};
ghost use Rattle.box_specs.specs.Validity.{splits};
ghost use Rattle.box_core.specs.Cuts.{half_of};

use crate::carrying::Carrying;
use crate::part::{BoxR, halves as halves_of, split as split_of};
use box_specs::CertLine;

/// A box, and what is held for it.
#[derive(Drop)]
pub struct Carried<H> {
    /// The box.
    pub part: BoxR,
    /// What is held for it.
    pub held: H,
}

/// The box of all recipes, evaluated afresh.
pub fn top<L: Carrying>(land: &L, meter: &mut L::Meter) -> Carried<L::Held>
    ensures part { result.part ≡ (L.land land.now).top }
    ensures stands { L.stands land.now result.held result.part }
    ensures fresh { L.fresh_count land.now meter.new ≤ L.fresh_count land.now meter.old + 1 }
    ensures judged { L.judged_count land.now meter.new ≡ L.judged_count land.now meter.old }
{
    let part = land.top();
    let held = land.hold(&part, meter);
    Carried { part, held }
}

/// A half of a box, with its held value from that of the box.
fn narrowed<L: Carrying>(
    land: &L,
    whole: &Carried<L::Held>,
    half: BoxR,
    dye: u8,
    mid: u16,
    upper: bool,
) -> Carried<L::Held>
    requires stands { L.stands land.now whole.now.held whole.now.part }
    requires inside { IsInside whole.now.part (L.land land.now).top }
    requires split { splits whole.now.part dye mid ≡ true }
    requires half { half ≡ half_of upper whole.now.part (record { dye = dye - 1; mid = mid }) }
    ensures part { result.part ≡ half }
    ensures stands { L.stands land.now result.held result.part }
{
    let held = land.narrow(&whole.held, &whole.part, dye, mid, upper);
    Carried { part: half, held }
}

/// The split line of a box of several recipes, and both its halves.
pub fn split<L: Carrying>(
    land: &L,
    whole: &Carried<L::Held>,
) -> (CertLine, Carried<L::Held>, Carried<L::Held>)
    requires stands { L.stands land.now whole.now.held whole.now.part }
    requires sound { IsSound (L.land land.now) whole.now.part }
    requires several { is_single whole.now.part ≡ false }
    ensures line { result.0
        ≡ Split ((cut_of whole.now.part).dye + 1) (cut_of whole.now.part).mid }
    ensures lower { (result.1.part ≡ lower_half whole.now.part (cut_of whole.now.part))
        × L.stands land.now result.1.held result.1.part }
    ensures upper { (result.2.part ≡ upper_half whole.now.part (cut_of whole.now.part))
        × L.stands land.now result.2.held result.2.part }
{
    let cut = split_of(&whole.part);
    let line = CertLine::Split {
        dye: cut.dye,
        mid: cut.mid,
    };
    let lower = narrowed(land, whole, cut.left, cut.dye, cut.mid, false);
    let upper = narrowed(land, whole, cut.right, cut.dye, cut.mid, true);
    (line, lower, upper)
}

/// Both halves of a box that is split after `mid` steps of the dye of this number, from 1. `None`
/// exactly where the dye does not exist, or a half would be empty.
pub fn halves<L: Carrying>(
    land: &L,
    whole: &Carried<L::Held>,
    dye: u8,
    mid: u16,
) -> Option<(Carried<L::Held>, Carried<L::Held>)>
    requires stands { L.stands land.now whole.now.held whole.now.part }
    requires inside { IsInside whole.now.part (L.land land.now).top }
    ensures none { IsNone result ↔ (splits whole.now.part dye mid ≡ false) }
    ensures lower { IfSome result (λ h.
        (h.0.part ≡ lower_half whole.now.part (record { dye = dye - 1; mid = mid }))
        × L.stands land.now h.0.held h.0.part) }
    ensures upper { IfSome result (λ h.
        (h.1.part ≡ upper_half whole.now.part (record { dye = dye - 1; mid = mid }))
        × L.stands land.now h.1.held h.1.part) }
{
    match halves_of(&whole.part, dye, mid) {
        None => None,
        Some((lower, upper)) => Some((
            narrowed(land, whole, lower, dye, mid, false),
            narrowed(land, whole, upper, dye, mid, true),
        )),
    }
}
