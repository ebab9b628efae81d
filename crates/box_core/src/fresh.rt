//! Landscapes of which nothing is carried.

use crate::carrying::Carrying;
use crate::landscape::Landscape;
use crate::part::BoxR;
use box_specs::Judged;
use price_grid::{Key, Steps};

/// A landscape as one that carries nothing from a box to its halves, so that what is written for a
/// [`Carrying`] serves any [`Landscape`]. Each of its boxes is judged afresh, so no count of these
/// is kept beside that of all: that count stands at its last value.
#[derive(Drop)]
pub struct Fresh<'a, L> {
    /// The landscape.
    pub land: &'a L,
}

impl<'a, L: Landscape> Landscape for Fresh<'a, L> {
    ghost use Rattle.std.specs.Prelude.{◌-◌, ◌^◌};

    type Meter = L::Meter;

    ghost land = { λ l. L.land l.land.now };

    ghost judged_count = { λ l m. L.judged_count l.land.now m };

    ghost fresh_count = { λ l m. 2 ^ 64 - 1 };

    fn dims(&self) -> usize {
        self.land.dims()
    }

    fn lights(&self) -> u8 {
        self.land.lights()
    }

    fn top(&self) -> BoxR {
        self.land.top()
    }

    fn key_of(&self, steps: &Steps) -> Key {
        self.land.key_of(steps)
    }

    fn excludes(&self, limit: u8, part: &BoxR) -> bool {
        self.land.excludes(limit, part)
    }

    fn judged(&self, meter: &L::Meter) -> u64 {
        self.land.judged(meter)
    }

    fn fresh(&self, _meter: &L::Meter) -> u64 {
        u64::MAX
    }

    fn fails(&self, light: u8, part: &BoxR, meter: &mut L::Meter) -> bool {
        self.land.fails(light, part, meter)
    }

    fn judge(&self, part: &BoxR, meter: &mut L::Meter) -> Judged {
        self.land.judge(part, meter)
    }
}

impl<'a, L: Landscape> Carrying for Fresh<'a, L> {
    type Held = ();

    ghost stands = { λ l held b. Unit {0} };

    fn hold(&self, _part: &BoxR, _meter: &mut L::Meter) {}

    fn narrow(&self, _held: &(), _part: &BoxR, _dye: u8, _mid: u16, _upper: bool) {}

    fn judge_held(&self, _held: &(), part: &BoxR, meter: &mut L::Meter) -> Judged {
        self.land.judge(part, meter)
    }

    fn fails_held(&self, _held: &(), light: u8, part: &BoxR, meter: &mut L::Meter) -> bool {
        self.land.fails(light, part, meter)
    }
}
