//! Judging differences against tolerances.

ghost use Rattle.std.specs.Prelude.{◌≡◌, ◌≤◌, ◌↔◌, true, false, Some, length};
ghost use Rattle.interval_specs.specs.Ends.{IsOrdered};
ghost use Rattle.arrayvec.specs.ArrayVec.{array_vec_len};
ghost use Rattle.metamerism.specs.Lights.{lights_of, tolerances_of};
ghost use Rattle.metamerism.specs.Verdicts.{IsFail, IsPass, decision_at, light_verdict, verdict_at};
ghost use Rattle.fix_bounds.specs.Scales.{base_unit};

use crate::lights::Lights;
use crate::one_light::Light;
use crate::outcomes::{Deltas, Verdict};
use cielab_bounds::Difference;
use fix_bounds::{Base, Iv, Scale, unit};

/// The verdict on the difference under the light with this number, against a tolerance in
/// thousandths.
#[tactic(auto, unfolding(crate::specs::Verdicts::light_verdict))]
fn judge_at<S: Scale>(tolerance: u32, number: u8, delta: Iv<S>) -> Verdict
    requires { tolerance ≤ 100000 }
    ensures is { result ≡ light_verdict S.unit tolerance number delta }
    ensures ordered { IsOrdered delta }
{
    let bound = i128::from(u64::from(tolerance) * unit::<S>());
    if 1000 * delta.hi() <= bound {
        Verdict::Pass
    } else if bound < 1000 * delta.lo() {
        Verdict::Fail(number)
    } else {
        Verdict::Undecided
    }
}

/// The verdict on the difference under one light, which has this number, against a tolerance in
/// thousandths.
pub fn judge_light(tolerance: u32, number: u8, delta: Iv<Base>) -> Verdict
    requires { tolerance ≤ 100000 }
    ensures { result ≡ light_verdict base_unit tolerance number delta }
{
    judge_at(tolerance, number, delta)
}

/// What the difference at this scale decides under the light: whether the sample fails, or nothing,
/// where the tolerance lies between its ends.
pub fn decide<S: Scale, D: Difference<S>>(light: &Light<S, D>, delta: Iv<S>) -> Option<bool>
    ensures is { result ≡ decision_at S.unit light.now.tolerance delta }
    ensures fails { (result ≡ Some true) ↔ IsFail S.unit light.now.tolerance delta }
    ensures passes { (result ≡ Some false) ↔ IsPass S.unit light.now.tolerance delta }
{
    judge_at(light.tolerance, 1, delta).certain_fail()
}

/// The verdict on a sample by its differences under the lights, one for each light.
pub fn verdict<S: Scale, D: Difference<S>>(lights: &Lights<S, D>, deltas: &Deltas<S>) -> Verdict
    requires { array_vec_len deltas.now.each ≡ length (lights_of lights.now) }
    ensures { result ≡ verdict_at S.unit (tolerances_of lights.now) deltas.now.each.items }
{
    let mut so_far = Verdict::Pass;
    for i in 0..lights.each.len() {
        let tolerance = lights.each.at(i).tolerance;
        let delta = deltas.each.as_slice()[i];
        so_far = so_far.joint(judge_at(tolerance, i as u8 + 1, delta));
    }
    so_far
}
