ghost use Rattle.std.specs.Prelude.{◌≡◌};
ghost use Rattle.shelf_io.specs.Calls.{fitting, is_scheduled};

// Whether the call that follows this many calls is scheduled to fail.
pub(crate) fn is_scheduled(failing: &[u64], calls: u64) -> bool
    ensures { result ≡ is_scheduled failing.now calls }
{
    let next = u128::from(calls) + 1;
    failing.iter().any(|number| u128::from(*number) == next)
}

// How many bytes a call takes of a piece of this size, where this much room is left.
pub(crate) fn fitting(scheduled: bool, room: usize, size: usize) -> usize
    ensures { result ≡ fitting scheduled room size }
{
    let most = if scheduled { size / 2 } else { size };
    room.min(most)
}
