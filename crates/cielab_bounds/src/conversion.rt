ghost use Rattle.std.specs.Prelude.{◌≡◌, ℕ, pos, ◌*◌, ◌≤◌, unsigned_abs};
ghost use Rattle.interval_specs.specs.Ends.{IsHeld, one_at};
ghost use Rattle.interval_specs.specs.Ranges.{MagnitudeUpTo, UpTo};
ghost use Rattle.interval_specs.specs.Operations.{difference_of, multiple_of};
ghost use Rattle.fix_bounds.specs.Ratios.{ratio_ends};
ghost use Rattle.cielab_bounds.specs.Cielab.{lab_at};
ghost use Rattle.cielab_bounds.specs.Lab.{lab_ends};

use crate::coordinates::Lab;
use crate::lab_f::f_iv;
use fix_bounds::{Iv, Ratios, Scale};

/// The CIELAB colour of these tristimulus ratios.
pub fn lab<S: Scale>(ratios: &Ratios<S>) -> Lab<S>
    ensures { lab_ends result ≡ lab_at S.unit (ratio_ends ratios.now) }
{
    let x = f_iv(ratios.x);
    let y = f_iv(ratios.y);
    let z = f_iv(ratios.z);
    Lab {
        l: lightness(y),
        a: opponent(500, x, y),
        b: opponent(200, y, z),
    }
}

/// The lightness, from f of Y/Yn.
fn lightness<S: Scale>(y: Iv<S>) -> Iv<S>
    requires { UpTo (2 * S.unit) y }
    ensures is { result
        ≡ difference_of (multiple_of (pos 116) y) (multiple_of (pos 16) (one_at S.unit)) }
    ensures range { MagnitudeUpTo (1000 * S.unit) result }
{
    let one: Iv<S> = Iv::of_ends(S::UNIT, S::UNIT);
    y.scale_by(116).sub(one.scale_by(16))
}

/// An opponent coordinate, a or b: `k` times the difference of f of its two ratios.
fn opponent<S: Scale>(k: i64, first: Iv<S>, second: Iv<S>) -> Iv<S>
    requires k { unsigned_abs k ≤ 500 }
    requires first { UpTo (2 * S.unit) first }
    requires second { UpTo (2 * S.unit) second }
    ensures is { result ≡ multiple_of k (difference_of first second) }
    ensures range { MagnitudeUpTo (1000 * S.unit) result }
{
    first.sub(second).scale_by(k)
}
