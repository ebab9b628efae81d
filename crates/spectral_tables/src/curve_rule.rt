//! The rule of the columns of a curve file.

use crate::column_range::ColumnRange;
use crate::column_rule::ColumnRule;
use crate::name::is_name;

/// Names of curves, and percentages from 0.01 to 100, that is 100 to 1,000,000 millionths.
pub(crate) struct CurveRule;

impl ColumnRule for CurveRule {
    ghost use Rattle.spectral_tables.specs.CurveFile.{curve_rule};

    ghost rule = { λ _. curve_rule };

    fn is_column(&self, name: &[u8]) -> bool {
        is_name(name)
    }

    fn range(&self, _name: &[u8]) -> ColumnRange {
        ColumnRange {
            least: 100,
            most: 1_000_000,
        }
    }
}
