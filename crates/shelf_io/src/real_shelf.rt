ghost use Rattle.std.specs.Prelude.{◌≡◌, ◌≤◌, ℕ, List, None, length, false, IfOk, IsOk, IsSome, IsTrue, is_err};
ghost use Rattle.std.specs.Option.{ForSome};
ghost use Rattle.shelf_io.specs.Calls.{count_after};
ghost use Rattle.shelf_io.specs.Changes.{HandsOut, OnlyReads, OnlyWrites, bytes_given};
ghost use Rattle.shelf_io.specs.Contents.{Adds, Contents, Creates};
ghost use Rattle.shelf_io.specs.Counts.{CountsFailure};
ghost use Rattle.shelf_io.specs.Reading.{Reads};
ghost use Rattle.shelf_io.specs.View.{unknown_shelf};

use crate::failed::Failed;
use crate::faults::count_error;
use crate::open_file::OpenFile;
use crate::shelf::Shelf;
use std::fs::File;
use std::io;
use std::rt::Files;

/// The files of the system, by their paths. Contracts know nothing of their contents.
///
/// It has one count of failed reads and one of failed writes, the same for every name. Each error
/// of the system is a failure, except that an interrupted read is tried up to 10,000 times, and an
/// interrupted write again.
///
/// The file that is read stays open. A read of the same name at the offset where the last one ended
/// continues in it, where that offset is above 0 and the name has at most 255 bytes. So under such
/// a name a file that another program replaces meanwhile is read whole, either the old one or the
/// new one, and a pipe can be read. A read at offset 0 opens the name anew. The file that is
/// created or appended to stays open, too. An append of no bytes waits until the system has stored
/// what was written before, so that an error which it reports only then is a failure of that call.
#[derive(Drop)]
pub struct RealShelf<R> {
    rt: R,
    reading: Option<OpenFile>,
    writing: Option<OpenFile>,
    read_faults: u64,
    write_faults: u64,
}

impl<R: Files<File = File> + Drop> RealShelf<R> {
    /// The shelf over this runtime, with no failure yet.
    pub fn new(rt: R) -> RealShelf<R>
        ensures { ⟦<RealShelf<R> as Shelf>⟧.view result ≡ unknown_shelf 0 0 }
    {
        RealShelf {
            rt,
            reading: None,
            writing: None,
            read_faults: 0,
            write_faults: 0,
        }
    }
}

// Reads from the offset on: in the open file where that has this name and is at this offset, which
// is above 0; and else in the file opened anew.
fn read<R: Files<File = File>>(
    rt: &R,
    reading: &mut Option<OpenFile>,
    name: &str,
    offset: u64,
    into: &mut [u8],
) -> io::Result<usize>
    ensures { IfOk result (λ count. count ≤ length into.new) }
{
    let mut file = match reading.take() {
        Some(file) if 0 < offset && file.offset() == offset && file.is_called(name) => file,
        _ => OpenFile::to_read(rt, name, offset)?,
    };
    let count = file.read(into)?;
    *reading = Some(file);
    Ok(count)
}

fn create<R: Files<File = File>>(
    rt: &R,
    writing: &mut Option<OpenFile>,
    name: &str,
) -> io::Result<()> {
    *writing = None;
    *writing = Some(OpenFile::to_fill(rt, name)?);
    Ok(())
}

// Writes at the end of the file, in the open file where that has this name. Where there is nothing
// to write it syncs the file.
fn append<R: Files<File = File>>(
    rt: &R,
    writing: &mut Option<OpenFile>,
    name: &str,
    piece: &[u8],
) -> io::Result<()> {
    let mut file = match writing.take() {
        Some(file) if file.is_called(name) => file,
        _ => OpenFile::to_append(rt, name)?,
    };
    if piece.is_empty() {
        file.sync()?;
    } else {
        file.write(piece)?;
    }
    *writing = Some(file);
    Ok(())
}

impl<R: Files<File = File> + Drop> Shelf for RealShelf<R> {
    ghost view = { λ s. unknown_shelf s.read_faults s.write_faults };

    fn read_faults(&self, _name: &str) -> u64 {
        self.read_faults
    }

    fn read_at(&mut self, name: &str, offset: u64, into: &mut [u8]) -> Result<usize, Failed>
        ensures count { self.new.read_faults ≡ count_after (is_err result) self.old.read_faults }

        ensures most { IfOk result (λ count. count ≤ length into.new) }
        ensures bytes { Reads None name.now offset result into.new }
        ensures effect { OnlyReads (λ n. n ≡ name.now)
            (unknown_shelf self.old.read_faults self.old.write_faults)
            (unknown_shelf self.new.read_faults self.new.write_faults) }
        ensures handed { HandsOut name.now (bytes_given result)
            (unknown_shelf self.old.read_faults self.old.write_faults)
            (unknown_shelf self.new.read_faults self.new.write_faults) }
        ensures counted { CountsFailure (is_err result)
            self.old.read_faults self.new.read_faults }
        ensures promised { IsTrue false → IsOk result }
    {
        let done = read(&self.rt, &mut self.reading, name, offset, into);
        count_error(done, &mut self.read_faults)
    }

    fn write_faults(&self, _name: &str) -> u64 {
        self.write_faults
    }

    fn create(&mut self, name: &str) -> Result<(), Failed>
        requires some { 1 ≤ length name.now }
        requires short { length name.now ≤ 255 }

        ensures count { self.new.write_faults
            ≡ count_after (is_err result) self.old.write_faults }

        ensures contents { Creates name.now result None None }
        ensures effect { OnlyWrites name.now 0
            (unknown_shelf self.old.read_faults self.old.write_faults)
            (unknown_shelf self.new.read_faults self.new.write_faults) }
        ensures counted { CountsFailure (is_err result)
            self.old.write_faults self.new.write_faults }
        ensures promised { (bytes : ℕ) → IsTrue false → IsOk result }
    {
        let done = create(&self.rt, &mut self.writing, name);
        count_error(done, &mut self.write_faults)
    }

    fn append(&mut self, name: &str, piece: &[u8]) -> Result<(), Failed>
        requires { ForSome None (λ (c : Contents). IsSome (c.file name.now)) }

        ensures count { self.new.write_faults
            ≡ count_after (is_err result) self.old.write_faults }

        ensures contents { Adds name.now piece.now result None None }
        ensures effect { OnlyWrites name.now (length piece.now)
            (unknown_shelf self.old.read_faults self.old.write_faults)
            (unknown_shelf self.new.read_faults self.new.write_faults) }
        ensures counted { CountsFailure (is_err result)
            self.old.write_faults self.new.write_faults }
        ensures promised { (more : ℕ) → IsTrue false → IsOk result }
        ensures kept { (n : List ℕ) (more : ℕ) → IsTrue false
            → IsTrue false × (self.new.write_faults ≡ self.old.write_faults) }
    {
        let done = append(&self.rt, &mut self.writing, name, piece);
        count_error(done, &mut self.write_faults)
    }
}
