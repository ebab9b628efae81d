ghost use Rattle.std.specs.Prelude.{◌≡◌, IfOk, is_err};
ghost use Rattle.shelf_io.specs.Calls.{count_after};

use crate::failed::Failed;
use std::io;

// Passes on the result of a system call, and counts an error as a fault.
pub(crate) fn count_error<T>(done: io::Result<T>, faults: &mut u64) -> Result<T, Failed>
    ensures value { IfOk result (λ value. done ≡ Ok value) }
    ensures counted { faults.new ≡ count_after (is_err result) faults.old }
{
    match done {
        Ok(value) => Ok(value),
        Err(_) => {
            *faults = faults.saturating_add(1);
            Err(Failed)
        }
    }
}
