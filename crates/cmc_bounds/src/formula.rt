ghost use Rattle.std.specs.Prelude.{◌≡◌};
ghost use Rattle.cmc_specs.specs.Cmc.{cmc_at, standard_at};
ghost use Rattle.cmc_bounds.specs.Standard.{standard_ends};
ghost use Rattle.cmc_specs.proofs.Law.{cmc_encloses};

use crate::difference;
use crate::rule::Cmc;
use crate::standard::Standard;
use cielab_bounds::{Difference, Formula, Lab};
use fix_bounds::{Iv, Scale};

impl Formula for Cmc {
    ghost value = { λ x. cmc_at x.l10 x.c10 };

    ghost keeps_enclosing = { λ x. cmc_encloses x.l10 x.c10 };
}

impl<S: Scale> Difference<S> for Cmc {
    type Kept = Standard<S>;

    ghost stands_for = { λ _ s p. standard_ends s ≡ standard_at S.unit p };

    fn keep(&self, standard: &Lab<S>) -> Standard<S> {
        difference::keep(standard)
    }

    fn delta(&self, kept: &Standard<S>, sample: &Lab<S>) -> Iv<S> {
        difference::delta(self, kept, sample)
    }
}
