ghost use Rattle.std.specs.Prelude.{◌≡◌, ◌≤◌, ◌+◌, ℕ, List, length, IsSome, IfOk, IsOk, IsTrue, is_err};
ghost use Rattle.std.specs.Option.{ForSome};
ghost use Rattle.shelf_io.specs.Changes.{HandsOut, OnlyReads, OnlyWrites, bytes_given};
ghost use Rattle.shelf_io.specs.Contents.{Adds, Creates};
ghost use Rattle.shelf_io.specs.Counts.{CountsFailure};
ghost use Rattle.shelf_io.specs.Reading.{Reads};
ghost use Rattle.shelf_io.specs.View.{ShelfView};

use crate::failed::Failed;

/// A store of files by name.
///
/// Each failed call raises the count that applies to the name that it is called with, that of reads
/// or that of writes. A count never falls, and stays at `u64::MAX` once it has reached it.
pub trait Shelf {
    // all that is known of the shelf
    ghost view: { Self → ShelfView };

    /// The count of failed reads that applies to this name, which other names may share.
    fn read_faults(&self, name: &str) -> u64
        ensures { result ≡ (view self.now).read_faults name.now };

    /// Copies the bytes of the file that begin at `offset` to the beginning of `into`, and returns
    /// how many.
    ///
    /// It may return fewer than fit, but 0 only at or past the end of the file, or where `into` is
    /// empty. It fails with `Failed` where the name is not held, or where the reading itself fails.
    fn read_at(&mut self, name: &str, offset: u64, into: &mut [u8]) -> Result<usize, Failed>
        ensures most { IfOk result (λ count. count ≤ length into.new) }
        ensures bytes { Reads (view self.old).contents name.now offset result into.new }
        ensures effect { OnlyReads (λ n. n ≡ name.now) (view self.old) (view self.new) }
        ensures handed { HandsOut name.now (bytes_given result) (view self.old) (view self.new) }
        ensures counted { CountsFailure (is_err result)
            ((view self.old).read_faults name.now) ((view self.new).read_faults name.now) }
        ensures promised { IsTrue ((view self.old).reads_promised name.now) → IsOk result };

    /// The count of failed writes that applies to this name, which other names may share.
    fn write_faults(&self, name: &str) -> u64
        ensures { result ≡ (view self.now).write_faults name.now };

    /// Creates the file of this name with no bytes, or empties it where the name is held.
    fn create(&mut self, name: &str) -> Result<(), Failed>
        requires some { 1 ≤ length name.now }
        requires short { length name.now ≤ 255 }

        ensures contents { Creates name.now result
            (view self.old).contents (view self.new).contents }
        ensures effect { OnlyWrites name.now 0 (view self.old) (view self.new) }
        ensures counted { CountsFailure (is_err result)
            ((view self.old).write_faults name.now) ((view self.new).write_faults name.now) }
        ensures promised { (bytes : ℕ) →
            IsTrue ((view self.old).writes_promised name.now bytes) → IsOk result };

    /// Appends the piece to the bytes of a name that is held. After a failure, `Failed`, a prefix
    /// of the piece has been appended.
    fn append(&mut self, name: &str, piece: &[u8]) -> Result<(), Failed>
        requires { ForSome (view self.old).contents (λ c. IsSome (c.file name.now)) }

        ensures contents { Adds name.now piece.now result
            (view self.old).contents (view self.new).contents }
        ensures effect { OnlyWrites name.now (length piece.now) (view self.old) (view self.new) }
        ensures counted { CountsFailure (is_err result)
            ((view self.old).write_faults name.now) ((view self.new).write_faults name.now) }
        ensures promised { (more : ℕ) →
            IsTrue ((view self.old).writes_promised name.now (length piece.now + more)) →
            IsOk result }
        ensures kept { (n : List ℕ) (more : ℕ) →
            IsTrue ((view self.old).writes_promised n (length piece.now + more)) →
            IsTrue ((view self.new).writes_promised n more)
            × ((view self.new).write_faults n ≡ (view self.old).write_faults n) };
}
