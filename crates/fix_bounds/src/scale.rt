ghost use Rattle.std.specs.Prelude.{◌≡◌, ℕ, ℤ, pos, ◌^◌, ◌≤◌};
ghost use Rattle.std.specs.Int.{◌∣◌};
ghost use Rattle.std.proofs.Common.{refl, lit≤};
ghost use Rattle.std.proofs.Math.Nat.{dvd-mul_right};
ghost use Rattle.fix_bounds.specs.Scales.{base_unit};

/// A fixed-point scale: the ends of an interval count parts of 1 / `UNIT`.
pub trait Scale: Copy {
    /// The number of parts that make 1.
    const UNIT: i128;

    ghost UNIT: { ℤ };

    // `UNIT` as a natural number, which the contracts cite
    ghost unit: { ℕ };

    ghost unit_is: { UNIT ≡ pos unit };

    ghost least: { 10 ^ 6 ≤ unit };

    ghost most: { unit ≤ 10 ^ 12 };

    ghost divides: { unit ∣ 10 ^ 12 };
}

/// The number of parts that make 1, as a natural number.
#[inline(always)]
pub fn unit<S: Scale>() -> u64
    ensures is { result ≡ S.unit }
    ensures least { 10 ^ 6 ≤ result }
    ensures most { result ≤ 10 ^ 12 }
{
    S::UNIT as u64
}

/// The scale of everything that is printed or decided: each part is 10^-12.
#[derive(Clone, Copy)]
pub struct Base;

impl Scale for Base {
    const UNIT: i128 = 1_000_000_000_000;

    ghost UNIT = { pos 1_000_000_000_000 };

    ghost unit = { base_unit };

    ghost unit_is = { refl };

    ghost least = { lit≤ tt };

    ghost most = { lit≤ tt };

    ghost divides = { dvd-mul_right (10 ^ 12) 1 };
}

/// A coarser scale, whose numbers are shorter: each part is 10^-8.
#[derive(Clone, Copy)]
pub struct Quick;

impl Scale for Quick {
    const UNIT: i128 = 100_000_000;

    ghost UNIT = { pos 100_000_000 };

    ghost unit = { 10 ^ 8 };

    ghost unit_is = { refl };

    ghost least = { lit≤ tt };

    ghost most = { lit≤ tt };

    ghost divides = { dvd-mul_right (10 ^ 8) (10 ^ 4) };
}
