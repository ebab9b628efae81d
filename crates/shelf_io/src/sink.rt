ghost use Rattle.std.specs.Prelude.{◌≡◌};
ghost use Rattle.shelf_io.specs.Taking.{Puts};
ghost use Rattle.shelf_io.specs.View.{SinkView};

use crate::failed::Failed;

/// An output that takes bytes one piece after the other, as standard output does.
///
/// The count of failures never falls, and stays at `u64::MAX` once it has reached it.
pub trait Sink {
    // all that is known of the sink
    ghost view: { Self → SinkView };

    /// How many calls of `put` have failed so far.
    fn faults(&self) -> u64
        ensures { result ≡ (view self.now).faults };

    /// Takes the whole piece. After a failure, `Failed`, a prefix of the piece has been taken.
    fn put(&mut self, piece: &[u8]) -> Result<(), Failed>
        ensures { Puts piece.now result (view self.old) (view self.new) };
}
