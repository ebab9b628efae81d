ghost use Rattle.std.specs.Prelude.{◌≡◌, ℕ, ◌*◌};
ghost use Rattle.interval_specs.specs.Ends.{IsHeld};
ghost use Rattle.interval_specs.specs.Ranges.{UpTo};
ghost use Rattle.spectral_tables.specs.Curve.{IsReflectance};
ghost use Rattle.ks_curves.specs.KubelkaMunk.{ks_at};

use fix_bounds::{Iv, Scale};

/// K/S of a reflectance in millionths, by Kubelka and Munk.
pub fn ks<S: Scale>(millionths: u32) -> Iv<S>
    requires { IsReflectance millionths }
    ensures is { result ≡ ks_at S.unit millionths }
    ensures range { UpTo (5000 * S.unit) result }
    ensures held { IsHeld result }
{
    let absorbed = u64::from(1_000_000 - millionths);
    let twice_reflected = 2_000_000 * u64::from(millionths);
    Iv::of_ratio(i128::from(absorbed * absorbed), i128::from(twice_reflected))
}
