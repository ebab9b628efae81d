//! What a search and a check can ask about recipes.

ghost use Rattle.std.specs.Prelude.{◌≡◌, ℕ, length};
ghost use Rattle.price_grid.specs.Order.{key_view};
ghost use Rattle.box_specs.specs.Landscape.{IsLawful, Land, judgement, key_of as key_at};
ghost use Rattle.box_specs.specs.Span.{IsInside, IsWithin};
ghost use Rattle.box_core.specs.Meter.{CountsOne};

use crate::part::BoxR;
use box_specs::Judged;
use price_grid::{Key, Steps};

/// A landscape of recipes: for each recipe a key and a verdict, and for each box of recipes the
/// limits that exclude it and the lights that fail on it. Limits and lights are numbered from 1. No
/// call allocates memory.
///
/// A meter counts the judgements that were made with it. No call makes a meter, so a caller has
/// only the one that it was given.
pub trait Landscape {
    /// A counter of judgements.
    type Meter: Drop;

    // the landscape as a definition: all that is known of the recipes
    ghost land: { Self → Land };

    // how many judgements were made with a meter, and how many of them used nothing kept of another
    ghost judged_count: { Self → Self.Meter → ℕ };

    ghost fresh_count: { Self → Self.Meter → ℕ };

    /// How many dyes a recipe has, 1 to 12.
    fn dims(&self) -> usize
        ensures { result ≡ length (land self.now).top.lo };

    /// How many lights there are, 1 to 4.
    fn lights(&self) -> u8
        ensures { result ≡ (land self.now).lights };

    /// The box of all recipes, of up to 4,000 steps of each dye.
    fn top(&self) -> BoxR
        ensures is { result ≡ (land self.now).top }
        ensures lawful { IsLawful (land self.now) };

    /// The key of a recipe: its cost and its steps.
    fn key_of(&self, steps: &Steps) -> Key
        requires { IsWithin steps.now.items (land self.now).top }
        ensures { key_view result ≡ key_at (land self.now) steps.now.items };

    /// Whether a limit excludes a box. A limit with a number outside 1 to 5 excludes none.
    fn excludes(&self, limit: u8, part: &BoxR) -> bool
        requires { IsInside part.now (land self.now).top }
        ensures { result ≡ (land self.now).excluded limit part.now };

    /// How many judgements were made with a meter, one by each call of `fails` or `judge`. The
    /// count stays at `u64::MAX` once it is there.
    fn judged(&self, meter: &Self::Meter) -> u64
        ensures { result ≡ judged_count self.now meter.now };

    /// How many judgements used nothing that was kept of another box. By the contracts of `fails`
    /// and `judge` this is each of them.
    fn fresh(&self, meter: &Self::Meter) -> u64
        ensures { result ≡ fresh_count self.now meter.now };

    /// Whether a light fails on a box. A light that does not exist fails on none. The call counts
    /// as one judgement.
    fn fails(&self, light: u8, part: &BoxR, meter: &mut Self::Meter) -> bool
        requires { IsInside part.now (land self.now).top }
        ensures is { result ≡ (land self.now).failing light part.now }
        ensures judged { CountsOne
            (judged_count self.now meter.old) (judged_count self.now meter.new) }
        ensures fresh { CountsOne
            (fresh_count self.now meter.old) (fresh_count self.now meter.new) };

    /// What is known of a box: the lowest limit that excludes it, else the lowest light that fails
    /// on it, else the verdict on its one recipe, else that it is open.
    fn judge(&self, part: &BoxR, meter: &mut Self::Meter) -> Judged
        requires { IsInside part.now (land self.now).top }
        ensures is { result ≡ judgement (land self.now) part.now }
        ensures judged { CountsOne
            (judged_count self.now meter.old) (judged_count self.now meter.new) }
        ensures fresh { CountsOne
            (fresh_count self.now meter.old) (fresh_count self.now meter.new) };
}

/// The key of the lower corner of a box, which is the least of its keys.
#[tactic(auto, using(box_specs::proofs::Spans::corner_within))]
pub fn corner_key<L: Landscape>(land: &L, part: &BoxR) -> Key
    requires { IsInside part.now (L.land land.now).top }
    ensures { key_view result ≡ key_at (L.land land.now) part.now.lo }
{
    land.key_of(&part.lo)
}
