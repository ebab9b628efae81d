//! The recipes of a job as a landscape, which a search and a check can explore.

ghost use Rattle.std.specs.Prelude.{◌≡◌, true};
ghost use Rattle.box_specs.specs.Landscape.{judgement, light_of, limit_of};
ghost use Rattle.box_specs.specs.Span.{IsInside, is_single};
ghost use Rattle.price_grid.specs.Grid.{IsRecipe, IsUpTo};
ghost use Rattle.spectral_tables.specs.Spectrum.{IsSpectrum};
ghost use Rattle.recipe_judge.specs.Evaluation.{spectrum_of};
ghost use Rattle.recipe_judge.specs.Recipes.{all_recipes, failing_light, grade_of, judged_from, recipe_land};
ghost use Rattle.fix_bounds.specs.Scales.{base_unit};

use crate::land::RecipeLand;
use crate::verdicts::{light_fails, verdict_on};
use box_core::{BoxR, Carrying, Evals, Judged, Landscape};
use fix_bounds::Base;
use metamerism::Verdict;
use mix_model::mix;
use price_grid::laws::excludes as limit_laws;
use price_grid::{Grid, Key, Steps, excludes, key};
use spectral_tables::Spectrum;

/// The box of all recipes of a grid.
fn all_recipes(grid: &Grid) -> BoxR
    ensures { result ≡ all_recipes grid.now }
{
    let mut lo = Steps::new();
    let mut hi = Steps::new();
    for dye in grid.dyes.as_slice() {
        lo.push(0);
        hi.push(dye.most);
    }
    BoxR { lo, hi }
}

/// How a box that no limit excludes is judged: from the verdict on all its recipes together, and
/// whether it is a single recipe.
fn judged_from(verdict: Verdict, alone: bool) -> Judged
    ensures { result ≡ judged_from verdict alone }
{
    match (verdict, alone) {
        (Verdict::Fail(light), _) => Judged::Fail(light),
        (_, false) => Judged::StillOpen,
        (Verdict::Pass, true) => Judged::Pass,
        (Verdict::Undecided, true) => Judged::Undecided,
    }
}

impl RecipeLand {
    /// The lowest limit that excludes a box.
    fn limit_on(&self, part: &BoxR) -> Option<u8>
        requires { IsInside part.now (all_recipes self.now.grid) }
        ensures { result ≡ limit_of (recipe_land self.now) part.now }
    {
        for limit in 1..6 {
            if excludes(self.grid(), self.limits(), limit, &part.lo, &part.hi) {
                return Some(limit);
            }
        }
        None
    }

    /// One spectrum for all recipes between two corners.
    fn spectrum_over(&self, low: &Steps, high: &Steps) -> Spectrum<Base>
        requires ordered { IsUpTo low.now.items high.now.items }
        requires recipe { IsRecipe self.now.grid high.now.items }
        ensures is { result ≡ spectrum_of base_unit self.now low.now.items high.now.items }
        ensures held { IsSpectrum base_unit result }
    {
        let dyes = self.resolved.dyes.as_slice();
        let bath = self.resolved.limits.bath.as_slice();
        mix(&self.base, dyes, bath, low.as_slice(), high.as_slice())
    }

    /// The verdict on the recipes of a box together. It names the first light that fails on the
    /// box, and on a box of one recipe it is the verdict on that recipe.
    fn verdict_over(&self, part: &BoxR) -> Verdict
        requires { IsInside part.now (all_recipes self.now.grid) }
        ensures light { light_of (recipe_land self.now) part.now ≡ failing_light result }
        ensures grade { is_single part.now ≡ true
            → (recipe_land self.now).grade part.now.lo ≡ grade_of result }
    {
        let sample = self.spectrum_over(&part.lo, &part.hi);
        verdict_on(&self.lights, &sample)
    }

    /// Whether a light fails on a box. A light that does not exist fails on none.
    fn light_fails_on(&self, light: u8, part: &BoxR) -> bool
        requires { IsInside part.now (all_recipes self.now.grid) }
        ensures { result ≡ (recipe_land self.now).failing light part.now }
    {
        if light == 0 || light > self.lights.count() {
            return false;
        }
        let sample = self.spectrum_over(&part.lo, &part.hi);
        light_fails(self.lights.get(light), &sample)
    }

    /// What is known of a box.
    fn judgement_on(&self, part: &BoxR) -> Judged
        requires { IsInside part.now (all_recipes self.now.grid) }
        ensures { result ≡ judgement (recipe_land self.now) part.now }
    {
        match self.limit_on(part) {
            Some(limit) => Judged::Limit(limit),
            None => judged_from(self.verdict_over(part), part.is_single()),
        }
    }
}

impl Landscape for RecipeLand {
    ghost use Rattle.recipe_judge.specs.Recipes.{recipe_land};

    type Meter = Evals;

    ghost land = { recipe_land };

    ghost judged_count = { λ l m. m.judged };

    ghost fresh_count = { λ l m. m.fresh };

    fn dims(&self) -> usize {
        self.resolved.grid.dyes.len()
    }

    fn lights(&self) -> u8 {
        self.lights.count()
    }

    fn top(&self) -> BoxR {
        // called only for their contracts: there are 1 to 4 lights, and a limit that excludes a box
        // excludes each recipe in it
        let _ = self.lights.count();
        limit_laws();
        all_recipes(self.grid())
    }

    fn key_of(&self, steps: &Steps) -> Key {
        key(self.grid(), steps)
    }

    fn excludes(&self, limit: u8, part: &BoxR) -> bool {
        excludes(self.grid(), self.limits(), limit, &part.lo, &part.hi)
    }

    fn judged(&self, meter: &Evals) -> u64 {
        meter.judged
    }

    fn fresh(&self, meter: &Evals) -> u64 {
        meter.fresh
    }

    fn fails(&self, light: u8, part: &BoxR, meter: &mut Evals) -> bool {
        meter.count();
        self.light_fails_on(light, part)
    }

    fn judge(&self, part: &BoxR, meter: &mut Evals) -> Judged {
        meter.count();
        self.judgement_on(part)
    }
}

/// Nothing is held for a box of recipes.
impl Carrying for RecipeLand {
    type Held = ();

    ghost stands = { λ l held b. Unit {0} };

    fn hold(&self, _part: &BoxR, meter: &mut Evals) {
        meter.count_fresh();
    }

    fn narrow(&self, _held: &(), _part: &BoxR, _dye: u8, _mid: u16, _upper: bool) {}

    fn judge_held(&self, _held: &(), part: &BoxR, meter: &mut Evals) -> Judged {
        meter.count_judged();
        self.judgement_on(part)
    }

    fn fails_held(&self, _held: &(), light: u8, part: &BoxR, meter: &mut Evals) -> bool {
        meter.count_judged();
        self.light_fails_on(light, part)
    }
}
