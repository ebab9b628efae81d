//! The cloth that the dyes of a job are added to.

ghost use Rattle.std.specs.Prelude.{◌≡◌};
ghost use Rattle.job_file.specs.Resolve.{base_curve};
ghost use Rattle.mix_model.specs.Base.{base_at};

use fix_bounds::Scale;
use job_file::Resolved;
use mix_model::BaseCurve;

/// The K/S of the cloth of the batch where there is one, and else that of the undyed cloth.
pub fn base_of<S: Scale>(resolved: &Resolved) -> BaseCurve<S>
    ensures { result
        ≡ base_at S.unit (base_curve resolved.now.substrate resolved.now.batch) }
{
    match &resolved.batch {
        Some(curve) => BaseCurve::of(curve),
        None => BaseCurve::of(&resolved.substrate),
    }
}
