ghost use Rattle.std.specs.Prelude.{◌≡◌};
ghost use Rattle.delta_specs.specs.Cie94.{cie94_at, standard_at};
ghost use Rattle.delta_specs.proofs.Law.{cie94_encloses};
ghost use Rattle.other_deltas.specs.Kinds.{application_of};
ghost use Rattle.other_deltas.specs.Standard.{standard_ends};

use crate::difference;
use crate::rule::Cie94;
use crate::standard::Standard94;
use cielab_bounds::{Difference, Formula, Lab};
use fix_bounds::{Iv, Scale};

impl Formula for Cie94 {
    ghost value = { λ x. cie94_at (application_of x.kind) };

    ghost keeps_enclosing = { λ x. cie94_encloses (application_of x.kind) };
}

impl<S: Scale> Difference<S> for Cie94 {
    type Kept = Standard94<S>;

    ghost stands_for = { λ x s p. standard_ends s ≡ standard_at (application_of x.kind) S.unit p };

    fn keep(&self, standard: &Lab<S>) -> Standard94<S> {
        difference::keep(self, standard)
    }

    fn delta(&self, kept: &Standard94<S>, sample: &Lab<S>) -> Iv<S> {
        difference::delta(self, kept, sample)
    }
}
