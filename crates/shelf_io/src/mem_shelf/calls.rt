ghost use Rattle.std.specs.Prelude.{◌≡◌, ◌≤◌, ◌+◌, ℕ, List, Some, length, IfOk, IsOk, IsSome, IsTrue, is_err};
ghost use Rattle.std.specs.Option.{ForSome};
ghost use Rattle.shelf_io.specs.Changes.{HandsOut, OnlyReads, OnlyWrites, bytes_given};
ghost use Rattle.shelf_io.specs.Contents.{Adds, Creates};
ghost use Rattle.shelf_io.specs.Counts.{CountsFailure};
ghost use Rattle.shelf_io.specs.MemShelf.{append_after, append_fails, create_after, create_fails, promises_reads, promises_writes, read_after, read_fails, read_size, shelf_contents, shelf_reads, shelf_view, shelf_writes};
ghost use Rattle.shelf_io.specs.Reading.{Reads};

use super::{MemShelf, index_of};
use crate::failed::Failed;
use crate::shelf::Shelf;

impl Shelf for MemShelf {
    ghost view = { shelf_view };

    fn read_faults(&self, name: &str) -> u64 {
        match index_of(&self.files, name) {
            Some(at) => self.files[at].reads(),
            None => self.shared_reads,
        }
    }

    fn read_at(&mut self, name: &str, offset: u64, into: &mut [u8]) -> Result<usize, Failed>
        ensures exact { is_err result ≡ read_fails self.old name.now }
        ensures size { IfOk result
            (λ count. count ≡ read_size self.old name.now offset (length into.new)) }
        ensures after { self.new ≡ read_after self.old name.now offset (length into.new) }

        ensures most { IfOk result (λ count. count ≤ length into.new) }
        ensures bytes { Reads (Some (shelf_contents self.old)) name.now offset result into.new }
        ensures effect { OnlyReads (λ n. n ≡ name.now) (shelf_view self.old) (shelf_view self.new) }
        ensures handed { HandsOut name.now (bytes_given result)
            (shelf_view self.old) (shelf_view self.new) }
        ensures counted { CountsFailure (is_err result)
            (shelf_reads self.old name.now) (shelf_reads self.new name.now) }
        ensures promised { IsTrue (promises_reads self.old name.now) → IsOk result }
    {
        self.read(name, offset, into)
    }

    fn write_faults(&self, name: &str) -> u64 {
        match index_of(&self.files, name) {
            Some(at) => self.files[at].writes(),
            None => self.shared_writes,
        }
    }

    fn create(&mut self, name: &str) -> Result<(), Failed>
        requires some { 1 ≤ length name.now }
        requires short { length name.now ≤ 255 }

        ensures exact { is_err result ≡ create_fails self.old name.now }
        ensures after { self.new ≡ create_after self.old name.now }

        ensures contents { Creates name.now result
            (Some (shelf_contents self.old)) (Some (shelf_contents self.new)) }
        ensures effect { OnlyWrites name.now 0 (shelf_view self.old) (shelf_view self.new) }
        ensures counted { CountsFailure (is_err result)
            (shelf_writes self.old name.now) (shelf_writes self.new name.now) }
        ensures promised { (bytes : ℕ) →
            IsTrue (promises_writes self.old name.now bytes) → IsOk result }
    {
        self.make(name)
    }

    fn append(&mut self, name: &str, piece: &[u8]) -> Result<(), Failed>
        requires { ForSome (Some (shelf_contents self.old)) (λ c. IsSome (c.file name.now)) }

        ensures exact { is_err result ≡ append_fails self.old piece.now }
        ensures after { self.new ≡ append_after self.old name.now piece.now }

        ensures contents { Adds name.now piece.now result
            (Some (shelf_contents self.old)) (Some (shelf_contents self.new)) }
        ensures effect { OnlyWrites name.now (length piece.now)
            (shelf_view self.old) (shelf_view self.new) }
        ensures counted { CountsFailure (is_err result)
            (shelf_writes self.old name.now) (shelf_writes self.new name.now) }
        ensures promised { (more : ℕ) →
            IsTrue (promises_writes self.old name.now (length piece.now + more)) → IsOk result }
        ensures kept { (n : List ℕ) (more : ℕ) →
            IsTrue (promises_writes self.old n (length piece.now + more)) →
            IsTrue (promises_writes self.new n more)
            × (shelf_writes self.new n ≡ shelf_writes self.old n) }
    {
        self.add(name, piece)
    }
}
