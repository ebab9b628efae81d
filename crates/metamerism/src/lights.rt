//! The lights of a comparison.

ghost use Rattle.std.specs.Prelude.{◌≡◌, ◌-◌, ◌<◌, ◌≤◌, true, [], ◌∷◌, ◌++◌, Some, length, slice_get};
ghost use Rattle.metamerism.specs.Few.{items_of};
ghost use Rattle.metamerism.specs.Places.{HaveEqualPlaces, light_places};
ghost use Rattle.metamerism.specs.Shared.{AreCorrectedByFirst};

use crate::few::Few;
use crate::one_light::Light;
use crate::tables::is_corrected_by;
use cielab_bounds::Difference;
use fix_bounds::Scale;

/// One to four lights, all for the same number of wavelengths.
#[derive(Drop)]
pub struct Lights<S: Scale, D: Difference<S>> {
    pub(crate) each: Few<Light<S, D>>,
    /// Does each corrected light correct samples by the first of these lights?
    pub(crate) by_first: bool,
    pub ghost equal: { HaveEqualPlaces (items_of each) },
    pub ghost corrected: { by_first ≡ true → AreCorrectedByFirst (items_of each) },
}

impl<S: Scale, D: Difference<S>> Lights<S, D> {
    ghost use Rattle.metamerism.specs.Lights.{lights_of, places_of};

    /// One light.
    pub fn one(first: Light<S, D>) -> Lights<S, D>
        ensures { lights_of result ≡ first ∷ [] }
    {
        let by_first = is_corrected_by(&first, &first.weights);
        Lights {
            each: Few::One(first),
            by_first,
        }
    }

    /// Two lights in this order.
    pub fn two(first: Light<S, D>, second: Light<S, D>) -> Lights<S, D>
        requires { light_places second ≡ light_places first }
        ensures { lights_of result ≡ first ∷ second ∷ [] }
    {
        Lights::one(first).and(second)
    }

    /// Three lights in this order.
    pub fn three(first: Light<S, D>, second: Light<S, D>, third: Light<S, D>) -> Lights<S, D>
        requires second { light_places second ≡ light_places first }
        requires third { light_places third ≡ light_places first }
        ensures { lights_of result ≡ first ∷ second ∷ third ∷ [] }
    {
        Lights::two(first, second).and(third)
    }

    /// Four lights in this order.
    pub fn four(
        first: Light<S, D>,
        second: Light<S, D>,
        third: Light<S, D>,
        fourth: Light<S, D>,
    ) -> Lights<S, D>
        requires second { light_places second ≡ light_places first }
        requires third { light_places third ≡ light_places first }
        requires fourth { light_places fourth ≡ light_places first }
        ensures { lights_of result ≡ first ∷ second ∷ third ∷ fourth ∷ [] }
    {
        Lights::three(first, second, third).and(fourth)
    }

    /// These lights and one more.
    fn and(self, next: Light<S, D>) -> Lights<S, D>
        requires room { length (lights_of self) < 4 }
        requires places { light_places next ≡ places_of self }
        ensures { lights_of result ≡ lights_of self ++ next ∷ [] }
    {
        let by_first = self.by_first && is_corrected_by(&next, &self.each.first().weights);
        Lights {
            each: self.each.and(next),
            by_first,
        }
    }

    /// How many lights there are.
    pub fn count(&self) -> u8
        ensures is { result ≡ length (lights_of self.now) }
        ensures some { 0 < result }
        ensures few { result ≤ 4 }
    {
        self.each.len() as u8
    }

    /// The light with this number, counted from 1.
    pub fn get(&self, number: u8) -> &Light<S, D>
        requires some { 0 < number }
        requires there { number ≤ length (lights_of self.now) }
        ensures { slice_get (lights_of self.now) (number - 1) ≡ Some result.now }
    {
        self.each.at(usize::from(number) - 1)
    }
}
