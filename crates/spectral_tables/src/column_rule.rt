//! Which columns a file may have.

ghost use Rattle.std.specs.Prelude.{◌≡◌};

use crate::column_range::ColumnRange;

/// Which names the columns of a file may have, and which numbers there may be under each.
pub trait ColumnRule {
    ghost use Rattle.spectral_tables.specs.Rule.{Rule};

    ghost rule: { Self → Rule };

    /// Whether a column may have this name.
    fn is_column(&self, name: &[u8]) -> bool
        ensures { result ≡ (rule self.now).is_column name.now };

    /// The range of the numbers under a name.
    fn range(&self, name: &[u8]) -> ColumnRange
        ensures { result ≡ (rule self.now).range_of name.now };
}
