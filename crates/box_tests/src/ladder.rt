//! A landscape of one dye.

ghost use Rattle.std.specs.Prelude.{◌≡◌, ◌≤◌, ◌==◌, ◌&&◌, nat_lt};
ghost use Rattle.box_tests.specs.Ladder.{judged_between};

use box_core::{BoxR, Carrying, Evals, Judged, Landscape};
use price_grid::{Key, Steps, copy_of};

/// Recipes of one dye, each step of which costs 1. There is one light: recipes with fewer steps
/// than `first` fail and the others pass. The limits 3 and 5 exclude those with more steps than
/// `last`.
#[derive(Drop)]
pub struct Ladder {
    /// The most steps of the dye.
    pub most: u16,
    /// The fewest steps of a recipe that passes.
    pub first: u16,
    /// The most steps that the limits admit.
    pub last: u16,
    pub ghost small: { most ≤ 4000 },
}

impl Ladder {
    /// Whether a light fails on the recipes of up to `high` steps.
    fn fails_on(&self, light: u8, high: u16) -> bool
        ensures { result ≡ (light == 1) && nat_lt high self.now.first }
    {
        light == 1 && high < self.first
    }

    /// What is known of the recipes of `low` to `high` steps.
    fn judged_between(&self, low: u16, high: u16) -> Judged
        ensures { result ≡ judged_between self.now.first self.now.last low high }
    {
        if self.last < low {
            Judged::Limit(3)
        } else if high < self.first {
            Judged::Fail(1)
        } else if low == high {
            Judged::Pass
        } else {
            Judged::StillOpen
        }
    }
}

impl Landscape for Ladder {
    ghost use Rattle.box_tests.specs.Ladder.{ladder};

    type Meter = Evals;

    ghost land = { λ l. ladder l.most l.first l.last };

    ghost judged_count = { λ l m. m.judged };

    ghost fresh_count = { λ l m. m.fresh };

    fn dims(&self) -> usize {
        1
    }

    fn lights(&self) -> u8 {
        1
    }

    fn top(&self) -> BoxR {
        let mut lo = Steps::new();
        lo.push(0);
        let mut hi = Steps::new();
        hi.push(self.most);
        BoxR { lo, hi }
    }

    fn key_of(&self, steps: &Steps) -> Key {
        Key {
            cost: u64::from(steps[0]),
            steps: copy_of(steps),
        }
    }

    fn excludes(&self, limit: u8, part: &BoxR) -> bool {
        (limit == 3 || limit == 5) && self.last < part.lo[0]
    }

    fn judged(&self, meter: &Evals) -> u64 {
        meter.judged
    }

    fn fresh(&self, meter: &Evals) -> u64 {
        meter.fresh
    }

    fn fails(&self, light: u8, part: &BoxR, meter: &mut Evals) -> bool {
        meter.count();
        self.fails_on(light, part.hi[0])
    }

    fn judge(&self, part: &BoxR, meter: &mut Evals) -> Judged {
        meter.count();
        self.judged_between(part.lo[0], part.hi[0])
    }
}

/// What is held for a box of a ladder: its fewest and its most steps.
#[derive(Drop)]
pub struct Rungs {
    pub low: u16,
    pub high: u16,
}

impl Carrying for Ladder {
    ghost use Rattle.std.specs.Prelude.{◌≡◌, ◌∷◌, []};

    type Held = Rungs;

    ghost stands = { λ l held b. (b.lo ≡ held.low ∷ []) × (b.hi ≡ held.high ∷ []) };

    fn hold(&self, part: &BoxR, meter: &mut Evals) -> Rungs {
        meter.count_fresh();
        Rungs {
            low: part.lo[0],
            high: part.hi[0],
        }
    }

    fn narrow(&self, held: &Rungs, _part: &BoxR, _dye: u8, mid: u16, upper: bool) -> Rungs {
        if upper {
            Rungs {
                low: mid + 1,
                high: held.high,
            }
        } else {
            Rungs {
                low: held.low,
                high: mid,
            }
        }
    }

    fn judge_held(&self, held: &Rungs, _part: &BoxR, meter: &mut Evals) -> Judged {
        meter.count_judged();
        self.judged_between(held.low, held.high)
    }

    fn fails_held(&self, held: &Rungs, light: u8, _part: &BoxR, meter: &mut Evals) -> bool {
        meter.count_judged();
        self.fails_on(light, held.high)
    }
}
