//! Quotients by a guess and a test: a 128-bit division is a slow call.
ghost use Rattle.std.specs.Prelude.{◌≡◌, ◌*◌, ◌/◌, ◌^◌, ◌<◌};
ghost use Rattle.std.specs.Int.{div_ceil};

/// The quotient of `z` by `divisor`, rounded down. Where a test shows that it is `near`, or one
/// more, there is no division.
#[inline(always)]
pub fn quotient(z: u128, divisor: u64, near: u64) -> u128
    requires { 0 < divisor }
    ensures { result ≡ z / divisor }
{
    let by = u128::from(divisor);
    let guess = u128::from(near);
    let product = guess * by;
    if product <= z {
        let left = z - product;
        if left < 2 * by {
            return if left < by { guess } else { guess + 1 };
        }
    }
    z / by
}

/// The quotient of `z` by `divisor`, rounded up, where `near` is a guess at the one rounded down.
#[inline(always)]
pub fn quotient_up(z: u128, divisor: u64, near: u64) -> u128
    requires some { 0 < divisor }
    requires room { z < 2 ^ 127 }
    ensures { result ≡ div_ceil z divisor }
{
    quotient(z + u128::from(divisor - 1), divisor, near)
}
