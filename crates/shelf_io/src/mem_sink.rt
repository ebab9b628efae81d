ghost use Rattle.std.specs.Prelude.{◌≡◌, IfOk, OnOk, OnErr, is_err};
ghost use Rattle.shelf_io.specs.MemSink.{failing_sink, fresh_sink, put_after, put_fails, sink_view};
ghost use Rattle.shelf_io.specs.Taking.{Puts};

use crate::calls::{fitting, is_scheduled};
use crate::failed::Failed;
use crate::sink::Sink;
use std::alloc::{AllocError, Global};
use std::marker::Model;

/// A sink that keeps the bytes it takes in memory, which is reserved when the sink is made.
///
/// Calls of `put` are numbered from 1, those that fail included. A call fails exactly where its
/// number was passed to `fail_at` or its piece is longer than the room that is left.
#[derive(Debug, Drop)]
pub struct MemSink {
    bytes: Vec<u8>,
    room: usize,
    faults: u64,
    calls: u64,
    failing: Vec<u64>,
}

impl Model for MemSink {
    ghost use Rattle.std.specs.Prelude.{◌+◌, ◌≤◌, vec_len};
    ghost use Rattle.std.specs.Vec.{vec_capacity};
    ghost use Rattle.shelf_io.specs.MemSink.{SinkState};

    ghost Value = { SinkState };

    ghost view = { λ s. record {
      taken = s.bytes.items;
      room = s.room;
      faults = s.faults;
      calls = s.calls;
      failing = s.failing.items;
    } };

    ghost invariant = { λ s. vec_len s.bytes + s.room ≤ vec_capacity s.bytes };
}

impl MemSink {
    /// A sink with room for this many bytes.
    pub fn empty(alloc: Global, room: usize) -> Result<MemSink, AllocError>
        ensures { IfOk result (λ sink. sink ≡ fresh_sink room) }
    {
        Ok(MemSink {
            bytes: Vec::with_capacity(alloc, room)?,
            room,
            faults: 0,
            calls: 0,
            failing: Vec::new(alloc),
        })
    }

    /// Schedules the call of this number to fail. Where memory runs out, the sink is as before.
    pub fn fail_at(&mut self, call: u64) -> Result<(), AllocError>
        ensures ok { OnOk result (self.new ≡ failing_sink call self.old) }
        ensures err { OnErr result (self.new ≡ self.old) }
    {
        self.failing.push(call)?;
        Ok(())
    }

    /// How many calls of `put` there have been, those that failed included. The count stays at
    /// `u64::MAX` once it has reached it.
    pub fn calls(&self) -> u64
        ensures { result ≡ self.now.calls }
    {
        self.calls
    }

    /// The bytes taken so far.
    pub fn taken(&self) -> &[u8]
        ensures { result.now ≡ self.now.taken }
    {
        self.bytes.as_slice()
    }
}

impl Sink for MemSink {
    ghost view = { sink_view };

    fn faults(&self) -> u64 {
        self.faults
    }

    fn put(&mut self, piece: &[u8]) -> Result<(), Failed>
        ensures exact { is_err result ≡ put_fails self.old piece.now }
        ensures after { self.new ≡ put_after self.old piece.now }
        ensures puts { Puts piece.now result (sink_view self.old) (sink_view self.new) }
    {
        let scheduled = is_scheduled(&self.failing, self.calls);
        let refused = scheduled || self.room < piece.len();
        let size = fitting(scheduled, self.room, piece.len());
        self.calls = self.calls.saturating_add(1);
        self.bytes.extend_from_slice(&piece[..size]).unwrap();
        self.room -= size;
        if refused {
            self.faults = self.faults.saturating_add(1);
            return Err(Failed);
        }
        Ok(())
    }
}
