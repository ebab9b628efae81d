ghost use Rattle.std.specs.Prelude.{◌≡◌, ◌≤◌, [], length, IfOk};

use crate::stored::Stored;
use std::alloc::{AllocError, Global};
use std::marker::Model;

// Memory that is reserved for a new file: for its name of up to 255 bytes, and for its bytes.
#[derive(Debug, Drop)]
pub(crate) struct Slot {
    name: String,
    bytes: Vec<u8>,
    reserved: usize,
}

impl Model for Slot {
    ghost use Rattle.std.specs.Prelude.{◌≡◌, ◌≤◌, ℕ, []};
    ghost use Rattle.std.specs.String.{string_bytes, string_capacity};
    ghost use Rattle.std.specs.Vec.{vec_capacity};

    ghost Value = { ℕ };

    ghost view = { λ p. p.reserved };

    ghost invariant = { λ p.
        (string_bytes p.name ≡ []) × (255 ≤ string_capacity p.name)
        × (p.bytes.items ≡ []) × (p.reserved ≤ vec_capacity p.bytes) };
}

impl Slot {
    // A slot for a file of up to `room` bytes.
    pub(crate) fn reserve(alloc: Global, room: usize) -> Result<Slot, AllocError>
        ensures { IfOk result (λ slot. slot ≡ room) }
    {
        Ok(Slot {
            name: String::with_capacity(alloc, 255)?,
            bytes: Vec::with_capacity(alloc, room)?,
            reserved: room,
        })
    }

    // Makes the slot a file with this name, no bytes and these counts, in the memory of the slot.
    pub(crate) fn hold(mut self, name: &str, room: usize, reads: u64, writes: u64) -> Stored
        requires short { length name.now ≤ 255 }
        requires room { room ≤ self }
        ensures { result ≡ record {
          name = name.now;
          bytes = [];
          reserved = room;
          reads = reads;
          writes = writes;
          handed = 0;
        } }
    {
        self.name.push_str(name).unwrap();
        Stored::empty(self.name, self.bytes, room, reads, writes)
    }
}
