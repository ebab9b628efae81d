ghost use Rattle.std.specs.Prelude.{◌≡◌, ℕ, ◌+◌, ◌*◌, ◌^◌, ◌<◌, ◌≤◌, ◌↔◌, IsTrue};

use crate::near_square::near_square_root;

/// The greatest number whose square is at most x.
pub fn sqrt_floor(x: u128) -> u128
    ensures small { result < 2 ^ 64 }
    ensures fits { result * result ≤ x }
    ensures greatest { (r : ℕ) → r * r ≤ x → r ≤ result }
{
    let near = near_square_root(x);
    if is_square_root(near, x) {
        u128::from(near)
    } else {
        sqrt_beside(near, x)
    }
}

/// The greatest number whose square is at most x, where the guess `near` is wrong: mostly it is one
/// too small.
#[cold]
#[inline(never)]
fn sqrt_beside(near: u64, x: u128) -> u128
    ensures small { result < 2 ^ 64 }
    ensures fits { result * result ≤ x }
    ensures greatest { (r : ℕ) → r * r ≤ x → r ≤ result }
{
    let next = near.wrapping_add(1);
    if is_square_root(next, x) {
        u128::from(next)
    } else {
        x.isqrt()
    }
}

/// Is this the greatest number whose square is at most x?
fn is_square_root(root: u64, x: u128) -> bool
    ensures { IsTrue result ↔ ((root * root ≤ x) × (x < (root + 1) * (root + 1))) }
{
    let root = u128::from(root);
    let square = root * root;
    square <= x && x - square <= 2 * root
}

/// The least number whose square is at least x.
pub fn sqrt_ceil(x: u128) -> u128
    ensures small { result ≤ 2 ^ 64 }
    ensures fits { x ≤ result * result }
    ensures least { (r : ℕ) → x ≤ r * r → result ≤ r }
{
    sqrt_above(sqrt_floor(x), x)
}

/// The least number whose square is at least x, from the greatest whose square is at most x.
fn sqrt_above(root: u128, x: u128) -> u128
    requires small { root < 2 ^ 64 }
    requires fits { root * root ≤ x }
    requires greatest { (r : ℕ) → r * r ≤ x → r ≤ root }
    ensures small { result ≤ 2 ^ 64 }
    ensures fits { x ≤ result * result }
    ensures least { (r : ℕ) → x ≤ r * r → result ≤ r }
{
    if root * root == x { root } else { root + 1 }
}

/// The least number whose square is at least x, from the greatest whose square is at most `low`:
/// where x is `low`, no second root is taken.
pub(crate) fn sqrt_above_end(root: u128, low: u128, x: u128) -> u128
    requires small { root < 2 ^ 64 }
    requires fits { root * root ≤ low }
    requires greatest { (r : ℕ) → r * r ≤ low → r ≤ root }
    ensures small { result ≤ 2 ^ 64 }
    ensures fits { x ≤ result * result }
    ensures least { (r : ℕ) → x ≤ r * r → result ≤ r }
{
    if x == low {
        sqrt_above(root, x)
    } else {
        sqrt_ceil(x)
    }
}
