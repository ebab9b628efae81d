//! The tables of a curve file, and of a curve file and a weights file.

ghost use Rattle.std.specs.Prelude.{◌≡◌, ◌≤◌, length, option_map};
ghost use Rattle.std.specs.Option.{ForSome};
ghost use Rattle.dye_run.specs.Inputs as spec;
ghost use Rattle.dye_run.specs.Inputs.{due_table, reads_book, reads_tables};
ghost use Rattle.run_core.specs.Judging.{Gives, IsMade};
ghost use Rattle.run_core.specs.Reading.{ReadsDue};
ghost use Rattle.run_core.specs.Views.{due_view};
ghost use Rattle.dye_run.specs.Views.{tables_view};
ghost use Rattle.spectral_tables.specs.declared.records.TheConstants.{TABLE_LIMIT};

use crate::tables::{Tables, table_from};
use run_core::{DueFile, Stop, read_one};
use shelf_io::Shelf;
use spectral_tables::{CurveBook, TABLE_LIMIT};
use std::alloc::Global;

/// A file of a table that is due.
pub(crate) fn due_table(name: &str) -> DueFile<'_>
    ensures { due_view result ≡ due_table name.now }
{
    DueFile {
        name,
        limit: TABLE_LIMIT,
    }
}

/// Reads a curve file, which is due, and makes its curves.
pub(crate) fn read_book<'a, H: Shelf>(
    alloc: Global,
    shelf: &mut H,
    curves: &'a str,
) -> Result<CurveBook, Stop<'a>>
    ensures made { IsMade (λ book. book) (reads_book curves.now)
        (H.view shelf.old) (H.view shelf.new) result }
    ensures reads { ReadsDue (reads_book curves.now) (H.view shelf.old) (H.view shelf.new) }
{
    let bytes_read = read_one(alloc, shelf, &due_table(curves))?;
    table_from(alloc, curves, bytes_read.as_deref())
}

// The bytes read from a curve file and from a weights file.
#[derive(Drop)]
struct Both {
    curves: Option<Vec<u8>>,
    weights: Option<Vec<u8>>,
}

// The tables of both files, made when both have been read.
#[tactic(auto, unfolding(crate::specs::Inputs::tables_from))]
fn tables_from<'a>(
    alloc: Global,
    curves: &'a str,
    weights: &'a str,
    bytes_read: &Both,
) -> Result<Tables, Stop<'a>>
    requires curves { ForSome bytes_read.now.curves (λ bytes. length bytes.items ≤ TABLE_LIMIT) }
    requires weights { ForSome bytes_read.now.weights (λ bytes. length bytes.items ≤ TABLE_LIMIT) }
    ensures { Gives tables_view result (spec.tables_from curves.now weights.now
        (option_map (λ b. b.items) bytes_read.now.curves)
        (option_map (λ b. b.items) bytes_read.now.weights)) }
{
    let book = table_from(alloc, curves, bytes_read.curves.as_deref())?;
    let table = table_from(alloc, weights, bytes_read.weights.as_deref())?;
    Ok(Tables {
        book,
        weights: table,
    })
}

/// Reads a curve file and then a weights file, which are both due, and makes their tables.
pub(crate) fn read_tables<'a, H: Shelf>(
    alloc: Global,
    shelf: &mut H,
    curves: &'a str,
    weights: &'a str,
) -> Result<Tables, Stop<'a>>
    ensures made { IsMade tables_view (reads_tables curves.now weights.now)
        (H.view shelf.old) (H.view shelf.new) result }
    ensures reads { ReadsDue (reads_tables curves.now weights.now)
        (H.view shelf.old) (H.view shelf.new) }
{
    let first = read_one(alloc, shelf, &due_table(curves))?;
    let second = read_one(alloc, shelf, &due_table(weights))?;
    let bytes_read = Both {
        curves: first,
        weights: second,
    };
    tables_from(alloc, curves, weights, &bytes_read)
}
