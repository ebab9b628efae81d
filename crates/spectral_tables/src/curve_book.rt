//! The curves of a file by name.

ghost use Rattle.std.specs.Prelude.{◌≡◌, length, IfSome, option_map};
ghost use Rattle.spectral_tables.specs.Curve.{IsCurve};
ghost use Rattle.spectral_tables.specs.CurveBook.{curve_named, wave_count, IsBook};

use crate::curve::Curve;
use indexmap::IndexMap;
use std::marker::Model;

/// The curves of a file by name, in the order of their columns.
#[derive(Drop)]
pub struct CurveBook {
    pub(crate) curves: IndexMap<Vec<u8>, Curve>,
}

impl Model for CurveBook {
    ghost use Rattle.spectral_tables.specs.CurveBook.{Book, IsBook, book_of};

    ghost Value = { Book };

    ghost view = { λ b. book_of b.curves.entries };

    ghost invariant = { λ b. IsBook (book_of b.curves.entries) };
}

impl CurveBook {
    /// The curve of this name, `None` exactly where no curve has it.
    pub fn find(&self, name: &str) -> Option<&Curve>
        ensures is { option_map (λ c. c.now) result ≡ curve_named name.now self.now }
        ensures curve { IfSome result (λ c. IsCurve c.now) }
        ensures waves { IfSome result (λ c. length c.now ≡ wave_count self.now) }
        ensures held { IsBook self.now }
    {
        self.curves.get(name.as_bytes())
    }
}
