ghost use Rattle.std.specs.Prelude.{◌≡◌, ℕ, ◌+◌, ◌*◌, ◌^◌, ◌<◌, ◌≤◌, ◌↔◌, IsTrue};

use crate::near_cube::near_cube_root;

/// The cube root of 2^128 - 1, rounded down.
const GREATEST: u64 = 6_981_463_658_331;

/// The greatest number whose cube is at most x.
#[tactic(auto, using(crate::proofs::Cubes::cube_greatest))]
pub fn cbrt_floor(x: u128) -> u128
    ensures small { result < 2 ^ 43 }
    ensures fits { result * result * result ≤ x }
    ensures greatest { (r : ℕ) → r * r * r ≤ x → r ≤ result }
{
    let near = near_cube_root(x).min(GREATEST);
    if is_cube_root(near, x) {
        u128::from(near)
    } else {
        cbrt_beside(near, x)
    }
}

/// The greatest number whose cube is at most x, where the guess `near` is wrong: mostly it is one
/// too small.
#[tactic(auto, using(crate::proofs::Cubes::cube_greatest))]
#[cold]
#[inline(never)]
fn cbrt_beside(near: u64, x: u128) -> u128
    ensures small { result < 2 ^ 43 }
    ensures fits { result * result * result ≤ x }
    ensures greatest { (r : ℕ) → r * r * r ≤ x → r ≤ result }
{
    let next = near.wrapping_add(1).min(GREATEST);
    if is_cube_root(next, x) {
        u128::from(next)
    } else {
        cbrt_halving(x)
    }
}

/// Is this the greatest number whose cube is at most x?
fn is_cube_root(root: u64, x: u128) -> bool
    requires { root ≤ GREATEST }
    ensures { IsTrue result
        ↔ ((root * root * root ≤ x) × (x < (root + 1) * (root + 1) * (root + 1))) }
{
    let root = u128::from(root);
    let cube = root * root * root;
    cube <= x && x - cube <= 3 * root * (root + 1)
}

/// The greatest number whose cube is at most x, by halving the range in which it lies.
fn cbrt_halving(x: u128) -> u128
    ensures small { result < 2 ^ 43 }
    ensures fits { result * result * result ≤ x }
    ensures greatest { (r : ℕ) → r * r * r ≤ x → r ≤ result }
{
    let mut low: u128 = 0;
    let mut high = u128::from(GREATEST) + 1;
    while high - low > 1 {
        let middle = (low + high) / 2;
        if middle * middle * middle <= x {
            low = middle;
        } else {
            high = middle;
        }
    }
    low
}

/// The least number whose cube is at least x.
pub fn cbrt_ceil(x: u128) -> u128
    ensures small { result ≤ 2 ^ 43 }
    ensures fits { x ≤ result * result * result }
    ensures least { (r : ℕ) → x ≤ r * r * r → result ≤ r }
{
    cbrt_above(cbrt_floor(x), x)
}

/// The least number whose cube is at least x, from the greatest whose cube is at most x.
fn cbrt_above(root: u128, x: u128) -> u128
    requires small { root < 2 ^ 43 }
    requires fits { root * root * root ≤ x }
    requires greatest { (r : ℕ) → r * r * r ≤ x → r ≤ root }
    ensures small { result ≤ 2 ^ 43 }
    ensures fits { x ≤ result * result * result }
    ensures least { (r : ℕ) → x ≤ r * r * r → result ≤ r }
{
    if root * root * root == x {
        root
    } else {
        root + 1
    }
}

/// The least number whose cube is at least x, from the greatest whose cube is at most `low`: where
/// x is `low`, no second root is taken.
pub(crate) fn cbrt_above_end(root: u128, low: u128, x: u128) -> u128
    requires small { root < 2 ^ 43 }
    requires fits { root * root * root ≤ low }
    requires greatest { (r : ℕ) → r * r * r ≤ low → r ≤ root }
    ensures small { result ≤ 2 ^ 43 }
    ensures fits { x ≤ result * result * result }
    ensures least { (r : ℕ) → x ≤ r * r * r → result ≤ r }
{
    if x == low {
        cbrt_above(root, x)
    } else {
        cbrt_ceil(x)
    }
}
