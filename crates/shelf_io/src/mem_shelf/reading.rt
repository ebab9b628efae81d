ghost use Rattle.std.specs.Prelude.{◌≡◌, ◌≤◌, Some, length, take, drop, min, IfOk, is_err, ◌-◌};
ghost use Rattle.shelf_io.specs.MemShelf.{read_after, read_fails, read_size, shelf_contents};
ghost use Rattle.shelf_io.specs.Reading.{Reads};

use super::{MemShelf, index_of};
use crate::calls::is_scheduled;
use crate::failed::Failed;

impl MemShelf {
    // Makes the next call, a read of the name.
    pub(super) fn read(&mut self, name: &str, offset: u64, into: &mut [u8]) -> Result<usize, Failed>
        ensures exact { is_err result ≡ read_fails self.old name.now }
        ensures size { IfOk result
            (λ count. count ≡ read_size self.old name.now offset (length into.new)) }
        ensures bytes { Reads (Some (shelf_contents self.old)) name.now offset result into.new }
        ensures after { self.new ≡ read_after self.old name.now offset (length into.new) }
    {
        let scheduled = is_scheduled(&self.failing, self.calls);
        let most = self.most;
        self.calls = self.calls.saturating_add(1);
        match index_of(&self.files, name) {
            Some(at) => {
                let file = &mut self.files[at];
                if scheduled {
                    file.fail_read();
                    return Err(Failed);
                }
                let count = copy(file.bytes(), offset, most, into);
                file.hand_out(count);
                Ok(count)
            }
            None => {
                self.shared_reads = self.shared_reads.saturating_add(1);
                Err(Failed)
            }
        }
    }
}

// Copies at most `most` bytes, those that begin at the offset, to the beginning of `into`, and
// returns how many it copied.
fn copy(bytes: &[u8], offset: u64, most: usize, into: &mut [u8]) -> usize
    ensures size { result ≡ min most (min (length into.new) (length bytes.now - offset)) }
    ensures bytes { take result into.new ≡ take result (drop offset bytes.now) }
{
    if offset >= bytes.len() as u64 {
        return 0;
    }
    let rest = &bytes[offset as usize..];
    let size = most.min(into.len().min(rest.len()));
    into[..size].copy_from_slice(&rest[..size]);
    size
}
