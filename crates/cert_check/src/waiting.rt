//! What waits for its line.

ghost use Rattle.std.specs.Prelude.{◌≡◌, MatchOption, IfOk, [], ◌∷◌};
ghost use Rattle.cert_check.specs.Walk.{with_halves};

use std::alloc::{AllocError, Global};
use std::marker::Model;

/// Boxes in the order of their lines, which is what contracts see. They are stored in reverse, so
/// that the next one is at the end.
#[derive(Drop)]
pub(crate) struct Waiting<X> {
    list: Vec<X>,
}

impl<X> Model for Waiting<X> {
    ghost use Rattle.std.specs.Prelude.{List, reverse};

    ghost Value = { List X };

    ghost view = { λ w. reverse w.list.items };
}

impl<X: Drop> Waiting<X> {
    /// A list of no boxes.
    pub(crate) fn new(alloc: Global) -> Waiting<X>
        ensures { result ≡ [] }
    {
        Waiting {
            list: Vec::new(alloc),
        }
    }

    /// Removes the first box.
    pub(crate) fn take(&mut self) -> Option<X>
        ensures { MatchOption result ((self.old ≡ []) × (self.new ≡ []))
            (λ b. self.old ≡ b ∷ self.new) }
    {
        self.list.pop()
    }

    /// Puts a box before the others.
    pub(crate) fn put(&mut self, part: X) -> Result<(), AllocError>
        ensures { IfOk result (λ _. self.new ≡ part ∷ self.old) }
    {
        self.list.push(part)?;
        Ok(())
    }

    /// Puts both halves of a box before the others, if it was split.
    pub(crate) fn put_halves(&mut self, halves: Option<(X, X)>) -> Result<(), AllocError>
        ensures { IfOk result (λ _. self.new ≡ with_halves halves self.old) }
    {
        if let Some((lower, upper)) = halves {
            self.put(upper)?;
            self.put(lower)?;
        }
        Ok(())
    }
}
