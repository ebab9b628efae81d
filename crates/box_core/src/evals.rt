//! Counting judgements.

ghost use Rattle.std.specs.Prelude.{◌≡◌};
ghost use Rattle.box_core.specs.Meter.{one_more};

/// A meter: how many judgements were made, and how many of them used nothing that was kept of
/// another box. A count stays at `u64::MAX` once it is there.
#[derive(Clone, Copy, Debug, Default, PartialEq, Eq)]
pub struct Evals {
    /// How many judgements were made.
    pub judged: u64,
    /// How many of them used nothing that was kept of another box.
    pub fresh: u64,
}

impl Evals {
    /// Counts a box that was judged afresh.
    pub fn count(&mut self)
        ensures { self.new
            ≡ record { judged = one_more self.old.judged; fresh = one_more self.old.fresh } }
    {
        self.count_judged();
        self.count_fresh();
    }

    /// Counts a box that was evaluated afresh, and is still to be judged.
    pub fn count_fresh(&mut self)
        ensures { self.new
            ≡ record { judged = self.old.judged; fresh = one_more self.old.fresh } }
    {
        self.fresh = self.fresh.saturating_add(1);
    }

    /// Counts a box that was judged from what was held for it.
    pub fn count_judged(&mut self)
        ensures { self.new
            ≡ record { judged = one_more self.old.judged; fresh = self.old.fresh } }
    {
        self.judged = self.judged.saturating_add(1);
    }
}
