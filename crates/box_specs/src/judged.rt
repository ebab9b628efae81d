//! The result of judging a box.

/// What is known of a box once it is judged. Limits and lights are numbered from 1.
#[derive(Clone, Copy, Debug, PartialEq, Eq)]
pub enum Judged {
    /// This is the lowest limit that excludes the box.
    Limit(u8),
    /// No limit excludes it, and this is the lowest light that fails on it.
    Fail(u8),
    /// No limit excludes it, no light fails on it, and it has more than one recipe.
    StillOpen,
    /// Its one recipe is admitted and passes.
    Pass,
    /// Its one recipe is admitted and is undecided.
    Undecided,
}
