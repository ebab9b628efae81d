//! One to four items, in order.

ghost use Rattle.std.specs.Prelude.{◌≡◌, ◌<◌, ◌≤◌, [], ◌∷◌, ◌++◌, Some, length, slice_get};
ghost use Rattle.metamerism.specs.Few.{items_of};

/// One to four items, in order. A generic type over an array would ask each caller to prove that
/// the array's size fits.
#[derive(Drop)]
pub(crate) enum Few<T> {
    One(T),
    Two(T, T),
    Three(T, T, T),
    Four(T, T, T, T),
}

impl<T: Drop> Few<T> {
    /// These items and one more.
    pub(crate) fn and(self, next: T) -> Few<T>
        requires { length (items_of self) < 4 }
        ensures { items_of result ≡ items_of self ++ next ∷ [] }
    {
        match self {
            Few::One(first) => Few::Two(first, next),
            Few::Two(first, second) => Few::Three(first, second, next),
            Few::Three(first, second, third) => Few::Four(first, second, third, next),
            Few::Four(..) => unreachable!(),
        }
    }

    /// How many items there are.
    pub(crate) fn len(&self) -> usize
        ensures is { result ≡ length (items_of self.now) }
        ensures some { 0 < result }
        ensures few { result ≤ 4 }
    {
        match self {
            Few::One(_) => 1,
            Few::Two(..) => 2,
            Few::Three(..) => 3,
            Few::Four(..) => 4,
        }
    }

    /// The first item.
    pub(crate) fn first(&self) -> &T
        ensures { slice_get (items_of self.now) 0 ≡ Some result.now }
    {
        self.at(0)
    }

    /// The item at an index.
    pub(crate) fn at(&self, i: usize) -> &T
        requires { i < length (items_of self.now) }
        ensures { slice_get (items_of self.now) i ≡ Some result.now }
    {
        match (self, i) {
            (Few::One(first), _)
            | (Few::Two(first, _), 0)
            | (Few::Three(first, _, _), 0)
            | (Few::Four(first, _, _, _), 0) => first,
            (Few::Two(_, second), _)
            | (Few::Three(_, second, _), 1)
            | (Few::Four(_, second, _, _), 1) => second,
            (Few::Three(_, _, third), _) | (Few::Four(_, _, third, _), 2) => third,
            (Few::Four(_, _, _, fourth), _) => fourth,
        }
    }
}
