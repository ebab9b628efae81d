//! What waits, in the order of places.

ghost use Rattle.std.specs.Prelude.{◌≡◌, IfNone, IfSome, None, OnErr, OnOk, Some};
ghost use Rattle.box_specs.specs.Tree.{Spot};
ghost use Rattle.box_search.specs.Frontier.{IsFirst, IsOrdered, lower_of, waits_in, with_upper};
ghost use Rattle.box_search.specs.Places.{at, spot};

use crate::place::Place;
use std::alloc::{AllocError, Global};
use std::collections::BTreeMap;

/// The halves of a box, each at its place.
#[derive(Drop)]
pub(crate) struct Halves<X> {
    pub lower: (Place, X),
    pub upper: (Place, X),
}

/// What waits to be judged: the boxes of a map, and the lower half of the box that was split last.
/// The box that was split was the first that waited, and the lower half has its lower corner, so
/// that half is the next; it is kept in hand and never enters the map.
#[derive(Drop)]
pub(crate) struct Frontier<X> {
    hand: Option<(Place, X)>,
    map: BTreeMap<Place, X>,
}

impl<X: Drop> Frontier<X> {
    /// One box waits.
    pub(crate) fn of(alloc: Global, place: Place, first: X) -> Frontier<X>
        ensures hand { result.hand ≡ Some (place, first) }
        ensures map { (z : Spot) → at result.map z ≡ None }
    {
        Frontier {
            hand: Some((place, first)),
            map: BTreeMap::new(alloc),
        }
    }

    /// Takes the first of the boxes that wait: the one in hand, or else the first of the map.
    pub(crate) fn take(&mut self) -> Option<(Place, X)>
        requires { IsOrdered self.old }
        ensures none { IfNone result ((z : Spot) → waits_in self.old z ≡ None) }
        ensures first { IfSome result (λ p. IsFirst (waits_in self.old)
            (spot p.0) p.1 (at self.new.map)) }
        ensures hand { self.new.hand ≡ None }
    {
        match self.hand.take() {
            Some(first) => Some(first),
            None => self.map.pop_first(),
        }
    }

    /// Adds the halves of the box that was taken last, if it is split: the upper one to the map,
    /// and the lower one in hand. Where there is no memory, the same boxes wait as before.
    pub(crate) fn put_halves(&mut self, halves: Option<Halves<X>>) -> Result<(), AllocError>
        requires { self.old.hand ≡ None }
        ensures hand { OnOk result (self.new.hand ≡ lower_of halves) }
        ensures map { OnOk result ((z : Spot) → at self.new.map z
            ≡ with_upper halves (at self.old.map) z) }
        ensures unchanged { OnErr result ((z : Spot) → waits_in self.new z ≡ waits_in self.old z) }
    {
        let Some(Halves { lower, upper }) = halves else {
            return Ok(());
        };
        self.map.insert(upper.0, upper.1)?;
        self.hand = Some(lower);
        Ok(())
    }
}
