ghost use Rattle.std.specs.Prelude.{◌≡◌, ◌≤◌, ◌<◌, ℕ, vec_len, IfOk, OnOk, OnErr, IfSome, length, map, option_map};
ghost use Rattle.shelf_io.specs.Contents.{put_bytes};
ghost use Rattle.shelf_io.specs.Held.{SlotsHaveRoom, index_of};
ghost use Rattle.shelf_io.specs.Filling.{IsFilled};
ghost use Rattle.shelf_io.specs.MemShelf.{failing_shelf, fresh_shelf, shelf_contents, shelf_handed, shelf_with, short_reads};

use crate::slot::Slot;
use crate::stored::Stored;
use std::alloc::{AllocError, Global};
use std::marker::Model;

mod calls;
mod reading;
mod writing;

/// A shelf that keeps its files in memory.
///
/// The room for appended bytes, over all files, and the slots for new names are fixed, and their
/// memory is taken, when it is made; `put_file` takes memory for its file, too. Emptying a file
/// gives no room back. Calls of `read_at`, `create` and `append` are numbered together from 1,
/// those that fail included.
#[derive(Debug, Drop)]
pub struct MemShelf {
    alloc: Global,
    files: Vec<Stored>,
    spare: Vec<Slot>,
    shared_reads: u64,
    shared_writes: u64,
    room: usize,
    most: usize,
    calls: u64,
    failing: Vec<u64>,
}

impl Model for MemShelf {
    ghost use Rattle.std.specs.Prelude.{◌+◌, ◌≤◌, vec_len};
    ghost use Rattle.std.specs.Vec.{vec_capacity};
    ghost use Rattle.shelf_io.specs.Held.{HaveRoom, SlotsHaveRoom};
    ghost use Rattle.shelf_io.specs.MemShelf.{ShelfState};

    ghost Value = { ShelfState };

    ghost view = { λ s. record {
      files = s.files.items;
      shared_reads = s.shared_reads;
      shared_writes = s.shared_writes;
      room = s.room;
      slots = vec_len s.spare;
      most = s.most;
      calls = s.calls;
      failing = s.failing.items;
    } };

    ghost invariant = { λ s.
        HaveRoom s.room s.files.items × SlotsHaveRoom s.room s.spare.items
        × (vec_len s.files + vec_len s.spare ≤ vec_capacity s.files) × (1 ≤ s.most) };
}

// The index of the file with this name.
fn index_of(files: &[Stored], name: &str) -> Option<usize>
    ensures index { result ≡ index_of name.now files.now }
    ensures inside { IfSome result (λ at. at < length files.now) }
{
    for (at, file) in files.iter().enumerate() {
        if file.is_called(name) {
            return Some(at);
        }
    }
    None
}

impl MemShelf {
    /// A shelf with no file, with room for `room` appended bytes over all files, and with `slots`
    /// slots for new names of up to 255 bytes.
    pub fn empty(alloc: Global, room: usize, slots: usize) -> Result<MemShelf, AllocError>
        ensures { IfOk result (λ shelf. shelf ≡ fresh_shelf room slots) }
    {
        Ok(MemShelf {
            alloc,
            files: Vec::with_capacity(alloc, slots)?,
            spare: reserve_slots(alloc, room, slots)?,
            shared_reads: 0,
            shared_writes: 0,
            room,
            most: usize::MAX,
            calls: 0,
            failing: Vec::new(alloc),
        })
    }

    /// A shelf made by `empty` with this room and these slots, into which these files have been put
    /// in turn.
    pub fn holding(
        alloc: Global,
        room: usize,
        slots: usize,
        files: &[(&str, &[u8])],
    ) -> Result<MemShelf, AllocError>
        ensures { IfOk result
            (IsFilled room slots (map (λ f. (f.0.now, f.1.now)) files.now)) }
    {
        let mut shelf = MemShelf::empty(alloc, room, slots)?;
        for (name, bytes) in files {
            shelf.put_file(name, bytes)?;
        }
        Ok(shelf)
    }

    /// Puts these bytes under the name. This does not count as a call and takes no room and no
    /// slot, and a name that was held keeps its counts. Where memory runs out, the shelf is as
    /// before.
    pub fn put_file(&mut self, name: &str, bytes: &[u8]) -> Result<(), AllocError>
        ensures ok { OnOk result (self.new ≡ shelf_with name.now bytes.now self.old) }
        ensures contents { OnOk result
            (shelf_contents self.new ≡ put_bytes name.now bytes.now (shelf_contents self.old)) }
        ensures err { OnErr result (self.new ≡ self.old) }
    {
        match index_of(&self.files, name) {
            Some(at) => {
                let file = &mut self.files[at];
                file.put(self.alloc, bytes, self.room)
            }
            None => {
                let file = Stored::of(
                    self.alloc,
                    name,
                    bytes,
                    self.room,
                    self.shared_reads,
                    self.shared_writes,
                )?;
                self.files.reserve(self.spare.len() + 1)?;
                self.files.push(file).unwrap();
                Ok(())
            }
        }
    }

    /// Schedules the call of this number to fail. Where memory runs out, the shelf is as before.
    pub fn fail_at(&mut self, call: u64) -> Result<(), AllocError>
        ensures ok { OnOk result (self.new ≡ failing_shelf call self.old) }
        ensures err { OnErr result (self.new ≡ self.old) }
    {
        self.failing.push(call)?;
        Ok(())
    }

    /// Makes each read from now on return at most `most` bytes.
    pub fn read_most(&mut self, most: usize)
        requires { 1 ≤ most }
        ensures { self.new ≡ short_reads most self.old }
    {
        self.most = most;
    }

    /// How many calls of `read_at`, `create` and `append` there have been, those that failed
    /// included. The count stays at `u64::MAX` once it has reached it.
    pub fn calls(&self) -> u64
        ensures { result ≡ self.now.calls }
    {
        self.calls
    }

    /// How many bytes reads of the name have returned so far, 0 where it is not held. The count
    /// stays at `u64::MAX` once it has reached it.
    pub fn handed(&self, name: &str) -> u64
        ensures { result ≡ shelf_handed self.now name.now }
    {
        match index_of(&self.files, name) {
            Some(at) => self.files[at].handed(),
            None => 0,
        }
    }

    /// The bytes under the name, `None` where it is not held.
    pub fn file(&self, name: &str) -> Option<&[u8]>
        ensures { option_map (λ bytes. bytes.now) result ≡ (shelf_contents self.now).file name.now }
    {
        match index_of(&self.files, name) {
            Some(at) => Some(self.files[at].bytes()),
            None => None,
        }
    }
}

// This many slots, each with memory for `room` bytes.
fn reserve_slots(alloc: Global, room: usize, slots: usize) -> Result<Vec<Slot>, AllocError>
    ensures count { IfOk result (λ spare. vec_len spare ≡ slots) }
    ensures each { IfOk result (λ spare. SlotsHaveRoom room spare.items) }
{
    let mut spare = Vec::with_capacity(alloc, slots)?;
    for _ in 0..slots {
        spare.push(Slot::reserve(alloc, room)?)?;
    }
    Ok(spare)
}
