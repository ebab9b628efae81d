//! The law of generated jobs. A call does nothing at run time; its contract is the law.
ghost use Rattle.demo_jobs.specs.Accepted.{JobsAreAccepted};

/// The four texts of [`make`](crate::make) are accepted by the readers and by the resolution of
/// jobs, whatever the number.
pub fn accepted()
    ensures { JobsAreAccepted }
{
    // printed numbers are read back as themselves
    dec_text::laws::reads_back();
}
