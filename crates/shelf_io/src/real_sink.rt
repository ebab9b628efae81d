ghost use Rattle.std.specs.Prelude.{◌≡◌, None, OnOk, false, is_err};
ghost use Rattle.std.specs.Io.KnownBytes.{Appends};
ghost use Rattle.shelf_io.specs.Calls.{count_after};
ghost use Rattle.shelf_io.specs.Taking.{Puts};
ghost use Rattle.shelf_io.specs.View.{unknown_sink};

use crate::failed::Failed;
use crate::faults::count_error;
use crate::sink::Sink;
use std::io;
use std::io::Write;

/// A sink that passes each piece on to a writer, for example to standard output.
///
/// Each error of the writer is a failure. The view of this sink says nothing of the bytes. The
/// clause `written` of `put` says which bytes a call that does not fail adds to those of the
/// writer.
#[derive(Drop)]
pub struct RealSink<W> {
    writer: W,
    faults: u64,
}

impl<W: Write + Drop> RealSink<W> {
    /// The sink over this writer, with no failure yet.
    pub fn new(writer: W) -> RealSink<W>
        ensures writer { result.writer ≡ writer }
        ensures faults { result.faults ≡ 0 }
    {
        RealSink { writer, faults: 0 }
    }
}

fn write<W: Write>(out: &mut W, piece: &[u8]) -> io::Result<()>
    ensures { OnOk result (Appends (W.contents out.old) (W.contents out.new) piece.now) }
{
    out.write_all(piece)?;
    out.flush()
}

impl<W: Write + Drop> Sink for RealSink<W> {
    ghost view = { λ s. unknown_sink s.faults };

    fn faults(&self) -> u64 {
        self.faults
    }

    fn put(&mut self, piece: &[u8]) -> Result<(), Failed>
        ensures puts { Puts piece.now result
            (unknown_sink self.old.faults) (unknown_sink self.new.faults) }
        ensures written { OnOk result
            (Appends (W.contents self.old.writer) (W.contents self.new.writer) piece.now) }
        ensures count { self.new.faults ≡ count_after (is_err result) self.old.faults }
    {
        count_error(write(&mut self.writer, piece), &mut self.faults)
    }
}
