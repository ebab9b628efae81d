ghost use Rattle.std.specs.Prelude.{◌≡◌, ℕ, pos, ◌^◌, ◌≤◌, ◌<ℤ◌, unsigned_abs};
ghost use Rattle.interval_specs.specs.Rounding.{floor_over, ceil_over};

/// The quotient `z / n`, rounded down.
pub(crate) fn floor(z: i128, n: i128) -> i128
    requires { pos 0 <ℤ n }
    ensures { result ≡ floor_over z (unsigned_abs n) }
{
    z.div_euclid(n)
}

/// The quotient `z / n`, rounded up.
pub(crate) fn ceil(z: i128, n: i128) -> i128
    requires positive { pos 0 <ℤ n }
    requires room { unsigned_abs z ≤ 10 ^ 37 }
    ensures { result ≡ ceil_over z (unsigned_abs n) }
{
    -floor(-z, n)
}

/// The quotient `z / n` rounded up, from `floor`, the same quotient rounded down: it takes no
/// second division.
pub(crate) fn ceil_after(floor: i128, z: i128, n: i128) -> i128
    requires positive { pos 0 <ℤ n }
    requires room { unsigned_abs z ≤ 10 ^ 37 }
    requires from_floor { floor ≡ floor_over z (unsigned_abs n) }
    ensures { result ≡ ceil_over z (unsigned_abs n) }
{
    if floor * n < z { floor + 1 } else { floor }
}
