ghost use Rattle.std.specs.Prelude.{◌≡◌, ◌+◌, ◌≤◌, [], ◌++◌, length, IfOk, OnOk, OnErr};
ghost use Rattle.std.specs.Str.{bytes_eq};
ghost use Rattle.std.specs.String.{string_bytes};
ghost use Rattle.std.specs.Vec.{vec_capacity};
ghost use Rattle.shelf_io.specs.Calls.{one_more};
ghost use Rattle.shelf_io.specs.Held.{with_bytes, with_failed_read, with_failed_write, with_handed, with_piece, without_bytes};

use std::alloc::{AllocError, Global};
use std::marker::Model;

// A file of a shelf in memory, with its counts of failures and of the bytes that reads returned.
// The memory that it may grow into is reserved in advance.
#[derive(Debug, Drop)]
pub(crate) struct Stored {
    name: String,
    bytes: Vec<u8>,
    reserved: usize,
    reads: u64,
    writes: u64,
    handed: u64,
}

impl Model for Stored {
    ghost use Rattle.std.specs.Prelude.{◌≤◌};
    ghost use Rattle.std.specs.String.{string_bytes};
    ghost use Rattle.std.specs.Vec.{vec_capacity, vec_len};
    ghost use Rattle.shelf_io.specs.Held.{Held};

    ghost Value = { Held };

    ghost view = { λ f. record {
      name = string_bytes f.name;
      bytes = f.bytes.items;
      reserved = f.reserved;
      reads = f.reads;
      writes = f.writes;
      handed = f.handed;
    } };

    ghost invariant = { λ f. (vec_len f.bytes ≤ f.reserved) × (f.reserved ≤ vec_capacity f.bytes) };
}

impl Stored {
    // A file with these counts, and room for `room` more bytes.
    pub(crate) fn of(
        alloc: Global,
        name: &str,
        bytes: &[u8],
        room: usize,
        reads: u64,
        writes: u64,
    ) -> Result<Stored, AllocError>
        ensures { IfOk result (λ f. f ≡ record {
          name = name.now;
          bytes = bytes.now;
          reserved = length bytes.now + room;
          reads = reads;
          writes = writes;
          handed = 0;
        }) }
    {
        let name = String::from_str(alloc, name)?;
        let mut file = Stored::empty(name, Vec::new(alloc), 0, reads, writes);
        file.put(alloc, bytes, room)?;
        Ok(file)
    }

    // A file with no bytes, in this empty buffer with room for `reserved` bytes.
    pub(crate) fn empty(
        name: String,
        bytes: Vec<u8>,
        reserved: usize,
        reads: u64,
        writes: u64,
    ) -> Stored
        requires none { bytes.items ≡ [] }
        requires room { reserved ≤ vec_capacity bytes }
        ensures { result ≡ record {
          name = string_bytes name;
          bytes = [];
          reserved = reserved;
          reads = reads;
          writes = writes;
          handed = 0;
        } }
    {
        Stored {
            name,
            bytes,
            reserved,
            reads,
            writes,
            handed: 0,
        }
    }

    pub(crate) fn is_called(&self, name: &str) -> bool
        ensures { result ≡ bytes_eq self.now.name name.now }
    {
        self.name.as_str() == name
    }

    pub(crate) fn bytes(&self) -> &[u8]
        ensures { result.now ≡ self.now.bytes }
    {
        self.bytes.as_slice()
    }

    // Replaces the bytes of the file, with room for `room` more. Where memory runs out, the file is
    // as before.
    pub(crate) fn put(&mut self, alloc: Global, bytes: &[u8], room: usize) -> Result<(), AllocError>
        ensures ok { OnOk result (self.new ≡ with_bytes bytes.now room self.old) }
        ensures err { OnErr result (self.new ≡ self.old) }
    {
        let reserved = bytes.len().checked_add(room).ok_or(AllocError)?;
        let mut buffer = Vec::with_capacity(alloc, reserved)?;
        buffer.extend_from_slice(bytes)?;
        self.bytes = buffer;
        self.reserved = reserved;
        Ok(())
    }

    pub(crate) fn reads(&self) -> u64
        ensures { result ≡ self.now.reads }
    {
        self.reads
    }

    pub(crate) fn writes(&self) -> u64
        ensures { result ≡ self.now.writes }
    {
        self.writes
    }

    pub(crate) fn handed(&self) -> u64
        ensures { result ≡ self.now.handed }
    {
        self.handed
    }

    pub(crate) fn fail_read(&mut self)
        ensures { self.new ≡ with_failed_read self.old }
    {
        self.reads = self.reads.saturating_add(1);
    }

    // Counts bytes that a read returned.
    pub(crate) fn hand_out(&mut self, count: usize)
        ensures { self.new ≡ with_handed count self.old }
    {
        self.handed = self.handed.saturating_add(count as u64);
    }

    pub(crate) fn fail_write(&mut self)
        ensures { self.new ≡ with_failed_write self.old }
    {
        self.writes = self.writes.saturating_add(1);
    }

    // Removes all bytes, and keeps their memory.
    pub(crate) fn clear(&mut self)
        ensures { self.new ≡ without_bytes self.old }
    {
        self.bytes.clear();
    }

    // Appends the piece to the bytes, and counts a failed write where `fails`, that is where the
    // call of the shelf fails.
    pub(crate) fn append(&mut self, piece: &[u8], fails: bool)
        requires { length self.old.bytes + length piece.now ≤ self.old.reserved }
        ensures { self.new ≡ with_piece fails piece.now self.old }
    {
        self.bytes.extend_from_slice(piece).unwrap();
        if fails {
            self.fail_write();
        }
    }
}
