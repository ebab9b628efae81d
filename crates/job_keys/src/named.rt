//! Parts of a job that have a name.

ghost use Rattle.std.specs.Prelude.{◌≡◌, ℕ, List};
ghost use Rattle.job_keys.specs.Names.{has_named};

/// A part of a job that has a name.
pub trait Named {
    ghost name_of: { Self → List ℕ };

    /// Its name.
    fn name(&self) -> &str
        ensures { result.now ≡ name_of self.now };
}

/// Whether some part of these has the name.
pub fn has_name<N: Named>(parts: &[N], name: &str) -> bool
    ensures { result ≡ has_named N.name_of parts.now name.now }
{
    parts.iter().any(|part| part.name() == name)
}
