ghost use Rattle.std.specs.Prelude.{◌≡◌, ◌≤◌, length, IsSome, is_err};
ghost use Rattle.shelf_io.specs.MemShelf.{append_after, append_fails, create_after, create_fails, shelf_contents};

use super::{MemShelf, index_of};
use crate::calls::{fitting, is_scheduled};
use crate::failed::Failed;

impl MemShelf {
    // Makes the next call, a create of the name.
    pub(super) fn make(&mut self, name: &str) -> Result<(), Failed>
        requires { length name.now ≤ 255 }
        ensures exact { is_err result ≡ create_fails self.old name.now }
        ensures after { self.new ≡ create_after self.old name.now }
    {
        let scheduled = is_scheduled(&self.failing, self.calls);
        self.calls = self.calls.saturating_add(1);
        match index_of(&self.files, name) {
            Some(at) => {
                let file = &mut self.files[at];
                if scheduled {
                    file.fail_write();
                    return Err(Failed);
                }
                file.clear();
                Ok(())
            }
            None => {
                if scheduled || self.spare.is_empty() {
                    self.shared_writes = self.shared_writes.saturating_add(1);
                    return Err(Failed);
                }
                let slot = self.spare.pop().unwrap();
                let file = slot.hold(name, self.room, self.shared_reads, self.shared_writes);
                self.files.push(file).unwrap();
                Ok(())
            }
        }
    }

    // Makes the next call, an append of the piece to a held name.
    pub(super) fn add(&mut self, name: &str, piece: &[u8]) -> Result<(), Failed>
        requires { IsSome ((shelf_contents self.old).file name.now) }
        ensures exact { is_err result ≡ append_fails self.old piece.now }
        ensures after { self.new ≡ append_after self.old name.now piece.now }
    {
        let scheduled = is_scheduled(&self.failing, self.calls);
        let refused = scheduled || self.room < piece.len();
        let size = fitting(scheduled, self.room, piece.len());
        self.calls = self.calls.saturating_add(1);
        let at = index_of(&self.files, name).unwrap();
        let file = &mut self.files[at];
        file.append(&piece[..size], refused);
        self.room -= size;
        if refused { Err(Failed) } else { Ok(()) }
    }
}
