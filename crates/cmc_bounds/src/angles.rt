//! The cosines and sines in the formula of T, and the sums that are made with them.
ghost use Rattle.std.specs.Prelude.{◌≡◌, ℕ, ◌*◌, ◌^◌, ◌<◌};
ghost use Rattle.interval_specs.specs.Ends.{IsHeld};
ghost use Rattle.interval_specs.specs.Ranges.{MagnitudeUpTo, UpTo};
ghost use Rattle.interval_specs.specs.Operations.{difference_of, product_at, sum_of};
ghost use Rattle.cmc_specs.specs.Cmc.{along_35, bracket};

use fix_bounds::{Iv, Scale};

// each cosine or sine lies between this number and the next one, counted in 10^-12
pub(crate) const COS_35: u64 = 819_152_044_288;

pub(crate) const SIN_35: u64 = 573_576_436_351;

pub(crate) const COS_12: u64 = 978_147_600_733;

pub(crate) const SIN_12: u64 = 207_911_690_817;

pub(crate) const COS_15: u64 = 965_925_826_289;

pub(crate) const SIN_15: u64 = 258_819_045_102;

pub(crate) const COS_16: u64 = 961_261_695_938;

pub(crate) const SIN_16: u64 = 275_637_355_816;

/// The interval of a constant that lies from `low` to `low + 1`, counted in 10^-12.
fn bracket<S: Scale>(low: u64) -> Iv<S>
    requires { low < 10 ^ 12 }
    ensures is { result ≡ bracket S.unit low }
    ensures range { UpTo S.unit result }
{
    let below: Iv<S> = Iv::of_ratio(i128::from(low), 1_000_000_000_000);
    let above: Iv<S> = Iv::of_ratio(i128::from(low + 1), 1_000_000_000_000);
    Iv::of_ends(below.lo(), above.hi())
}

/// `a` times a cosine plus `b` times a sine: the part of the point (a, b) along the direction that
/// has this cosine and this sine.
pub(crate) fn projection<S: Scale>(a: Iv<S>, cos: u64, b: Iv<S>, sin: u64) -> Iv<S>
    requires a { MagnitudeUpTo (1000 * S.unit) a }
    requires b { MagnitudeUpTo (1000 * S.unit) b }
    requires cos { cos < 10 ^ 12 }
    requires sin { sin < 10 ^ 12 }
    ensures is { result
        ≡ sum_of (product_at S.unit a (bracket S.unit cos))
        (product_at S.unit b (bracket S.unit sin)) }
    ensures range { MagnitudeUpTo (2000 * S.unit) result }
{
    let first = a.mul(bracket(cos));
    let second = b.mul(bracket(sin));
    first.add(second)
}

/// C1 cos(h1 + 35 degrees), which is a cos 35 - b sin 35.
pub(crate) fn along_35<S: Scale>(a: Iv<S>, b: Iv<S>) -> Iv<S>
    requires a { MagnitudeUpTo (1000 * S.unit) a }
    requires b { MagnitudeUpTo (1000 * S.unit) b }
    ensures is { result ≡ along_35 S.unit a b }
    ensures range { MagnitudeUpTo (2000 * S.unit) result }
{
    let first = a.mul(bracket(COS_35));
    let second = b.mul(bracket(SIN_35));
    first.sub(second)
}
