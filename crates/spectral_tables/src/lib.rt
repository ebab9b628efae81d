//! Curve files and weights files: tables of comma-separated fields, read up to the first fault.
#![tactic(auto)]

mod column_file;
mod column_header;
mod column_range;
mod column_rows;
mod column_rule;
mod columns;
mod curve;
mod curve_book;
mod curve_columns;
mod curve_file;
mod curve_rule;
mod fault;
mod fields;
mod folding;
mod grid;
pub mod laws;
mod name;
mod numbers;
mod records;
mod run;
mod spectrum;
mod trim;
mod waves;
mod weight_file;
mod weight_rows;
mod weights;

pub use column_file::read_columns;
pub use column_range::ColumnRange;
pub use column_rule::ColumnRule;
pub use columns::Columns;
pub use curve::Curve;
pub use curve_book::CurveBook;
pub use curve_file::read_curves;
pub use fault::{TableError, TableFault, TableRule};
pub use folding::fold;
pub use grid::{MOST_WAVES, WaveGrid};
pub use name::is_name;
pub use records::TABLE_LIMIT;
pub use spectrum::Spectrum;
pub use waves::Waves;
pub use weight_file::read_weights;
pub use weights::Weights;
