//! Reading the due files of a command: those that its words, or the job that they name, require.

ghost use Rattle.std.specs.Prelude.{◌≡◌, ◌+◌, map, option_map, IfErr, IfOk};
ghost use Rattle.shelf_io.specs.Changes.{HandsOut, OnlyReads};
ghost use Rattle.run_core.specs.Due.{CanBeRead};
ghost use Rattle.run_core.specs.Judging.{Breaks, StopsAt};
ghost use Rattle.run_core.specs.Reading.{Reads, any_file, each_file, one_file};
ghost use Rattle.run_core.specs.Views.{bytes_view, due_view};

use crate::stop::Stop;
use shade_report::Refusal;
use shelf_io::{Shelf, TakeFault, take_file};
use std::alloc::Global;

/// Reads a due file: its bytes, or `None` where it has more than `limit`.
pub fn due<'a, H: Shelf>(
    alloc: Global,
    shelf: &mut H,
    name: &'a str,
    limit: u64,
) -> Result<Option<Vec<u8>>, Stop<'a>>
    ensures from_files { IfOk result (λ bytes_read.
        CanBeRead (H.view shelf.old).contents name.now limit
        (option_map (λ bytes. bytes.items) bytes_read)) }
    ensures stopped { IfErr result (StopsAt name.now (H.view shelf.old) (H.view shelf.new)) }
    ensures effect { OnlyReads (λ n. n ≡ name.now) (H.view shelf.old) (H.view shelf.new) }
    ensures handed { HandsOut name.now (limit + 1) (H.view shelf.old) (H.view shelf.new) }
{
    match take_file(alloc, shelf, name, limit) {
        Ok(bytes) => Ok(Some(bytes)),
        Err(TakeFault::TooLong) => Ok(None),
        Err(TakeFault::Fault) => Err(Stop::Refused(Refusal::Unreadable(name))),
        Err(TakeFault::Memory) => Err(Stop::Memory),
    }
}

/// A file that is due, and how many bytes it may have.
#[derive(Clone, Copy)]
pub struct DueFile<'a> {
    pub name: &'a str,
    pub limit: u64,
}

/// Reads a due file: its bytes, or `None` where it has more than its limit.
pub fn read_one<'a, H: Shelf>(
    alloc: Global,
    shelf: &mut H,
    file: &DueFile<'a>,
) -> Result<Option<Vec<u8>>, Stop<'a>>
    ensures bytes_read { IfOk result (λ bytes_read.
        Reads (one_file (due_view file.now)) (bytes_view bytes_read)
        (H.view shelf.old) (H.view shelf.new)) }
    ensures stopped { IfErr result
        (Breaks (one_file (due_view file.now)) (H.view shelf.old) (H.view shelf.new)) }
{
    due(alloc, shelf, file.name, file.limit)
}

/// Reads due files, one after the other.
pub fn read_each<'n, H: Shelf>(
    alloc: Global,
    shelf: &mut H,
    files: &[DueFile<'n>],
) -> Result<Vec<Option<Vec<u8>>>, Stop<'n>>
    ensures bytes_read { IfOk result (λ bytes_read.
        Reads (each_file (map due_view files.now)) (map bytes_view bytes_read.items)
        (H.view shelf.old) (H.view shelf.new)) }
    ensures stopped { IfErr result
        (Breaks (each_file (map due_view files.now)) (H.view shelf.old) (H.view shelf.new)) }
{
    let mut bytes_read = Vec::new(alloc);
    for file in files {
        let bytes = read_one(alloc, shelf, file)?;
        bytes_read.push(bytes)?;
    }
    Ok(bytes_read)
}

/// Reads a due file, if there is one.
pub fn read_any<'a, H: Shelf>(
    alloc: Global,
    shelf: &mut H,
    file: Option<DueFile<'a>>,
) -> Result<Option<Vec<u8>>, Stop<'a>>
    ensures bytes_read { IfOk result (λ bytes_read.
        Reads (any_file (option_map due_view file.entry)) (bytes_view bytes_read)
        (H.view shelf.old) (H.view shelf.new)) }
    ensures stopped { IfErr result
        (Breaks (any_file (option_map due_view file.entry)) (H.view shelf.old) (H.view shelf.new)) }
{
    match file {
        Some(file) => read_one(alloc, shelf, &file),
        None => Ok(None),
    }
}
