ghost use Rattle.std.specs.Prelude.{◌≡◌, ◌≤◌, length, IfOk};

use arrayvec::ArrayString;
use std::fs::{File, OpenOptions};
use std::io::{Read, Seek, SeekFrom, Write};
use std::rt::Files;
use std::{fs, io};

// How many times a read is tried while it is interrupted.
const TRIES: usize = 10_000;

// A file that stays open between calls. A name of more than 255 bytes is not stored, so that each
// call opens such a file anew.
#[derive(Drop)]
pub(crate) struct OpenFile {
    name: Option<ArrayString<255>>,
    file: File,
    offset: u64,
}

impl OpenFile {
    fn of(name: &str, file: File, offset: u64) -> OpenFile {
        OpenFile {
            name: ArrayString::from(name).ok(),
            file,
            offset,
        }
    }

    // Opens the file of this name for reading from the offset on.
    pub(crate) fn to_read<R: Files<File = File>>(
        rt: &R,
        name: &str,
        offset: u64,
    ) -> io::Result<OpenFile> {
        let mut file = fs::open(rt, name)?;
        if offset > 0 {
            file.seek(SeekFrom::Start(offset))?;
        }
        Ok(OpenFile::of(name, file, offset))
    }

    // Creates the file of this name, or empties it.
    pub(crate) fn to_fill<R: Files<File = File>>(rt: &R, name: &str) -> io::Result<OpenFile> {
        Ok(OpenFile::of(name, fs::create(rt, name)?, 0))
    }

    // Opens the file of this name for writing at its end.
    pub(crate) fn to_append<R: Files<File = File>>(rt: &R, name: &str) -> io::Result<OpenFile> {
        let file = OpenOptions::new().append(true).open(rt, name)?;
        Ok(OpenFile::of(name, file, 0))
    }

    pub(crate) fn is_called(&self, name: &str) -> bool {
        match &self.name {
            Some(kept) => kept.as_str() == name,
            None => false,
        }
    }

    pub(crate) fn offset(&self) -> u64 {
        self.offset
    }

    // Reads the next bytes. An interrupted read is tried again, up to 10,000 times in all.
    pub(crate) fn read(&mut self, into: &mut [u8]) -> io::Result<usize>
        ensures { IfOk result (λ count. count ≤ length into.new) }
    {
        for _ in 0..TRIES {
            match self.file.read(into) {
                Ok(count) => {
                    self.offset = self.offset.saturating_add(count as u64);
                    return Ok(count);
                }
                Err(error) if error.kind() == io::ErrorKind::Interrupted => {}
                Err(error) => return Err(error),
            }
        }
        Err(io::Error::from(io::ErrorKind::Interrupted))
    }

    // Writes the whole piece. The standard library tries an interrupted write again.
    pub(crate) fn write(&mut self, piece: &[u8]) -> io::Result<()> {
        self.file.write_all(piece)
    }

    // Waits until the system has stored what was written. A file that cannot be synced, such as a
    // pipe, has nothing to wait for.
    pub(crate) fn sync(&mut self) -> io::Result<()> {
        match self.file.sync_data() {
            Err(error) if error.kind() == io::ErrorKind::InvalidInput => Ok(()),
            done => done,
        }
    }
}
