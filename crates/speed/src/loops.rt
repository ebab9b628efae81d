//! A loop for each operation, and one without any (`Ends`). The sum of the results, or of their
//! ends, is printed, so that the compiler cannot leave out a call.
ghost use Rattle.std.specs.Prelude.{ℕ, ◌^◌, ◌≤◌};

use crate::pairs::Pair;
use fix_bounds::{Iv, Scale, unit};
use mix_model::reflect;
use root_bounds::{cbrt_ceil, cbrt_floor, cbrt_iv, sqrt_ceil, sqrt_floor, sqrt_iv};

/// The operations that are timed.
#[derive(Clone, Copy, Debug)]
pub(crate) enum Operation {
    Ends,
    OfRatio,
    Add,
    Sub,
    Mul,
    Div,
    Square,
    ScaleBy,
    RatioUp,
    Abs,
    CutLow,
    CutHigh,
    Hull,
    SqrtIv,
    CbrtIv,
    SqrtFloor,
    SqrtCeil,
    CbrtFloor,
    CbrtCeil,
    Reflect,
}

/// All of them, in the order of the report.
pub(crate) const OPERATIONS: [Operation; 20] = [
    Operation::Ends,
    Operation::OfRatio,
    Operation::Add,
    Operation::Sub,
    Operation::Mul,
    Operation::Div,
    Operation::Square,
    Operation::ScaleBy,
    Operation::RatioUp,
    Operation::Abs,
    Operation::CutLow,
    Operation::CutHigh,
    Operation::Hull,
    Operation::SqrtIv,
    Operation::CbrtIv,
    Operation::SqrtFloor,
    Operation::SqrtCeil,
    Operation::CbrtFloor,
    Operation::CbrtCeil,
    Operation::Reflect,
];

// evaluates `$call` on each pair, `$rounds` times over, and sums the ends of the results
macro_rules! rounds {
    ($pairs:ident, $rounds:ident, $first:ident, $second:ident, $call:expr) => {{
        let mut sum = 0i128;
        for _ in 0..$rounds {
            for pair in $pairs {
                let ($first, $second) = (pair.first, pair.second);
                let _ = $second;
                let result = $call;
                sum = sum.wrapping_add(result.lo()).wrapping_add(result.hi());
            }
        }
        sum
    }};
}

// the same with the K/S of each pair
macro_rules! strength_rounds {
    ($pairs:ident, $rounds:ident, $strength:ident, $call:expr) => {{
        let mut sum = 0i128;
        for _ in 0..$rounds {
            for pair in $pairs {
                let $strength = pair.strength;
                let result = $call;
                sum = sum.wrapping_add(result.lo()).wrapping_add(result.hi());
            }
        }
        sum
    }};
}

// the same with a number: the lower end of the first interval of each pair
macro_rules! number_rounds {
    ($pairs:ident, $rounds:ident, $low:ident, $call:expr) => {{
        let mut sum = 0i128;
        for _ in 0..$rounds {
            for pair in $pairs {
                let $low = pair.first.lo().unsigned_abs();
                sum = sum.wrapping_add($call as i128);
            }
        }
        sum
    }};
}

fn ends<S: Scale>(pairs: &[Pair<S>], rounds: u32) -> i128 {
    rounds!(pairs, rounds, a, b, a)
}

fn of_ratio<S: Scale>(pairs: &[Pair<S>], rounds: u32) -> i128 {
    rounds!(pairs, rounds, a, b, Iv::<S>::of_ratio(a.lo(), b.lo()))
}

fn add<S: Scale>(pairs: &[Pair<S>], rounds: u32) -> i128 {
    rounds!(pairs, rounds, a, b, a.add(b))
}

fn sub<S: Scale>(pairs: &[Pair<S>], rounds: u32) -> i128 {
    rounds!(pairs, rounds, a, b, a.sub(b))
}

fn mul<S: Scale>(pairs: &[Pair<S>], rounds: u32) -> i128 {
    rounds!(pairs, rounds, a, b, a.mul(b))
}

fn div<S: Scale>(pairs: &[Pair<S>], rounds: u32) -> i128 {
    rounds!(pairs, rounds, a, b, a.div(b))
}

fn square<S: Scale>(pairs: &[Pair<S>], rounds: u32) -> i128 {
    rounds!(pairs, rounds, a, b, a.square())
}

fn scale_by<S: Scale>(pairs: &[Pair<S>], rounds: u32) -> i128 {
    rounds!(pairs, rounds, a, b, a.scale_by(-116))
}

fn ratio_up<S: Scale>(pairs: &[Pair<S>], rounds: u32) -> i128 {
    rounds!(pairs, rounds, a, b, a.ratio_up(1_234_567, 7_654_321))
}

fn abs<S: Scale>(pairs: &[Pair<S>], rounds: u32) -> i128 {
    rounds!(pairs, rounds, a, b, a.abs())
}

fn cut_low<S: Scale>(pairs: &[Pair<S>], rounds: u32) -> i128 {
    rounds!(pairs, rounds, a, b, a.cut_low(0))
}

fn cut_high<S: Scale>(pairs: &[Pair<S>], rounds: u32) -> i128 {
    rounds!(pairs, rounds, a, b, a.cut_high(0))
}

fn hull<S: Scale>(pairs: &[Pair<S>], rounds: u32) -> i128 {
    rounds!(pairs, rounds, a, b, a.hull(b))
}

fn sqrt_interval<S: Scale>(pairs: &[Pair<S>], rounds: u32) -> i128 {
    rounds!(pairs, rounds, a, b, sqrt_iv(a))
}

fn cbrt_interval<S: Scale>(pairs: &[Pair<S>], rounds: u32) -> i128 {
    rounds!(pairs, rounds, a, b, cbrt_iv(a))
}

fn sqrt_down<S: Scale>(pairs: &[Pair<S>], rounds: u32) -> i128 {
    let parts = u128::from(unit::<S>());
    number_rounds!(pairs, rounds, low, sqrt_floor(low * parts))
}

fn sqrt_up<S: Scale>(pairs: &[Pair<S>], rounds: u32) -> i128 {
    let parts = u128::from(unit::<S>());
    number_rounds!(pairs, rounds, low, sqrt_ceil(low * parts))
}

fn cbrt_down<S: Scale>(pairs: &[Pair<S>], rounds: u32) -> i128 {
    let square = unit_squared::<S>();
    number_rounds!(pairs, rounds, low, cbrt_floor(low * square))
}

fn cbrt_up<S: Scale>(pairs: &[Pair<S>], rounds: u32) -> i128 {
    let square = unit_squared::<S>();
    number_rounds!(pairs, rounds, low, cbrt_ceil(low * square))
}

fn reflectance<S: Scale>(pairs: &[Pair<S>], rounds: u32) -> i128 {
    strength_rounds!(pairs, rounds, q, reflect(q))
}

fn unit_squared<S: Scale>() -> u128
    ensures { result ≤ 10 ^ 24 }
{
    let parts = u128::from(unit::<S>());
    parts * parts
}

/// Calls one operation on each pair, `rounds` times over, and sums the results or their ends.
pub(crate) fn run<S: Scale>(operation: Operation, pairs: &[Pair<S>], rounds: u32) -> i128 {
    match operation {
        Operation::Ends => ends(pairs, rounds),
        Operation::OfRatio => of_ratio(pairs, rounds),
        Operation::Add => add(pairs, rounds),
        Operation::Sub => sub(pairs, rounds),
        Operation::Mul => mul(pairs, rounds),
        Operation::Div => div(pairs, rounds),
        Operation::Square => square(pairs, rounds),
        Operation::ScaleBy => scale_by(pairs, rounds),
        Operation::RatioUp => ratio_up(pairs, rounds),
        Operation::Abs => abs(pairs, rounds),
        Operation::CutLow => cut_low(pairs, rounds),
        Operation::CutHigh => cut_high(pairs, rounds),
        Operation::Hull => hull(pairs, rounds),
        Operation::SqrtIv => sqrt_interval(pairs, rounds),
        Operation::CbrtIv => cbrt_interval(pairs, rounds),
        Operation::SqrtFloor => sqrt_down(pairs, rounds),
        Operation::SqrtCeil => sqrt_up(pairs, rounds),
        Operation::CbrtFloor => cbrt_down(pairs, rounds),
        Operation::CbrtCeil => cbrt_up(pairs, rounds),
        Operation::Reflect => reflectance(pairs, rounds),
    }
}
