ghost use Rattle.std.specs.Prelude.{◌≡◌, ℕ, ◌*◌, ◌^◌};
ghost use Rattle.interval_specs.specs.Ranges.{MagnitudeUpTo, UpTo};
ghost use Rattle.lab_parts.specs.Chroma.{IsChroma};
ghost use Rattle.lab_parts.specs.Parts.{chroma_at, chroma_square};

use fix_bounds::{Iv, Scale};
use root_bounds::sqrt_iv;

/// The sum of the squares of two opponent coordinates, or of two differences of them.
pub fn chroma_square<S: Scale>(a: Iv<S>, b: Iv<S>) -> Iv<S>
    requires a { MagnitudeUpTo (2000 * S.unit) a }
    requires b { MagnitudeUpTo (2000 * S.unit) b }
    ensures is { result ≡ chroma_square S.unit a b }
    ensures range { UpTo (8 * 10 ^ 6 * S.unit) result }
    ensures narrow { MagnitudeUpTo (1000 * S.unit) a → MagnitudeUpTo (1000 * S.unit) b
        → UpTo (2 * 10 ^ 6 * S.unit) result }
{
    let first = a.square();
    let second = b.square();
    first.add(second)
}

/// The chroma.
pub fn chroma<S: Scale>(a: Iv<S>, b: Iv<S>) -> Iv<S>
    requires a { MagnitudeUpTo (1000 * S.unit) a }
    requires b { MagnitudeUpTo (1000 * S.unit) b }
    ensures is { result ≡ chroma_at S.unit a b }
    ensures range { IsChroma S.unit result }
{
    sqrt_iv(chroma_square(a, b))
}
