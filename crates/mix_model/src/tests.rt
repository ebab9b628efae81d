ghost use Rattle.std.specs.Prelude.{◌≡◌, replicate};
ghost use Rattle.spectral_tables.specs.Curve.{IsReflectance};
ghost use Rattle.mix_model.specs.Samples.{rust};

use super::*;
use crate::by_unit::{near_over_unit, over_unit};
use crate::reflectance::{divisor_up, near_reflectance};
use arrayvec::ArrayVec;
use fix_bounds::{Base, Iv, Quick, Scale, unit};
use ks_curves::{Calibration, Dye, quotient};
use spectral_tables::Curve;

fn ends<S: Scale>(iv: Iv<S>) -> (i128, i128) {
    (iv.lo(), iv.hi())
}

// A cloth that reflects equally much at each wavelength.
fn even(millionths: u32) -> Curve
    requires { IsReflectance millionths }
    ensures { result ≡ replicate 31 millionths }
{
    Curve::of(&[millionths; 31])
}

// A dye of one dyeing, in steps of 10 units.
fn rust() -> Dye
    ensures { result ≡ rust }
{
    let mut dyeings = ArrayVec::new();
    dyeings.push((1000, even(300_000)));
    Dye::of(Calibration::Line, 10, even(500_000), dyeings)
}

// Half the light is reflected where K/S is a quarter, and all of it where K/S is 0. A cloth that
// reflects 50 percent, with as much dye as a dyeing that reflects 30 percent, reflects 30 percent.
#[test]
fn mixtures(rt: HostRuntime) {
    let quarter = Iv::<Base>::of_ends(250_000_000_000, 250_000_000_000);
    assert_eq!(rt; ends(reflect(quarter)), (500_000_000_000, 500_000_000_000));
    assert_eq!(rt;
        ends(reflect(Iv::<Base>::default())),
        (1_000_000_000_000, 1_000_000_000_000)
    );
    let dyes = [rust()];
    let base: BaseCurve<Base> = BaseCurve::of(&even(500_000));
    assert_eq!(rt; base.waves(), 31);
    assert_eq!(rt; ends(base.at(30)), (250_000_000_000, 250_000_000_000));
    let dyed = mix(&base, &dyes, &[0], &[100], &[100]).at(7);
    assert!(rt; dyed.lo() <= 300_000_000_000 && 300_000_000_000 <= dyed.hi());
    assert!(rt; dyed.hi() - dyed.lo() <= 3);
    let sums = Sums::of(&base, &dyes, &[0], &[0], &[100]);
    assert_eq!(rt; ends(sums.at(7)), (250_000_000_000, 816_666_666_667));
    let any = mix(&base, &dyes, &[0], &[0], &[100]).at(7);
    assert_eq!(rt; ends(any), (dyed.lo(), 500_000_000_000));
    assert_eq!(rt; ends(sums.spectrum().at(7)), ends(any));
}

// The sums of up to four steps of a dye, narrowed to one to four steps.
#[test]
fn a_narrowed_box(rt: HostRuntime) {
    let dyes = [rust()];
    let base: BaseCurve<Base> = BaseCurve::of(&even(500_000));
    let sums = Sums::of(&base, &dyes, &[0], &[0], &[4]);
    assert_eq!(rt; ends(sums.at(7)), (250_000_000_000, 272_666_666_667));
    let narrowed = sums.narrow(&dyes, &[0], 0, (0, 4), (1, 4));
    assert_eq!(rt; ends(narrowed.at(7)), (255_666_666_666, 272_666_666_667));
}

// Whether two sums are the same at each wavelength.
fn are_same(one: &Sums<Base>, other: &Sums<Base>) -> bool {
    for wave in 0..one.waves() {
        if wave >= other.waves() || ends(one.at(wave)) != ends(other.at(wave)) {
            return false;
        }
    }
    one.waves() == other.waves()
}

// Boxes narrowed one after the other have the sums that are computed for each box anew.
#[test]
fn boxes_narrowed_in_turn(rt: HostRuntime) {
    let dyes = [rust(), rust()];
    let base: BaseCurve<Base> = BaseCurve::of(&even(500_000));
    let first = Sums::of(&base, &dyes, &[0, 0], &[0, 0], &[9, 7]);
    let second = first.narrow(&dyes, &[0, 0], 0, (0, 9), (1, 9));
    let second_anew = Sums::of(&base, &dyes, &[0, 0], &[1, 0], &[9, 7]);
    assert!(rt; are_same(&second, &second_anew));
    let third = second.narrow(&dyes, &[0, 0], 1, (0, 7), (0, 3));
    let third_anew = Sums::of(&base, &dyes, &[0, 0], &[1, 0], &[9, 3]);
    assert!(rt; are_same(&third, &third_anew));
    let last = third.narrow(&dyes, &[0, 0], 0, (1, 9), (5, 5));
    let last_anew = Sums::of(&base, &dyes, &[0, 0], &[5, 0], &[5, 3]);
    assert!(rt; are_same(&last, &last_anew));
    assert!(rt; !are_same(&first, &last));
    assert_eq!(rt; ends(last.at(0)), (278_333_333_333, 295_333_333_335));
}

/// A wrong guess only costs time, so no clause rules it out: this test counts the wrong ones, for
/// K/S from 0 to 30.
#[test]
fn guesses_are_mostly_right(rt: HostRuntime) {
    assert!(rt; wrong_guesses::<Base>() < 4);
    assert!(rt; wrong_guesses::<Quick>() < 4);
}

fn wrong_guesses<S: Scale>() -> u32 {
    let parts = unit::<S>();
    let square = u128::from(parts) * u128::from(parts);
    let mut drawn: u64 = 1;
    let mut wrong: u32 = 0;
    for _ in 0..4000 {
        drawn = drawn
            .wrapping_mul(6_364_136_223_846_793_005)
            .wrapping_add(1_442_695_040_888_963_407);
        let q = drawn / 0x1_0000 % (30 * parts);
        let power = u128::from(q) * u128::from(q);
        let over = near_over_unit::<S>(power);
        let divisor = divisor_up::<S>(q);
        let near = near_reflectance(parts, q, divisor);
        if !is_near(over, over_unit::<S>(power))
            || !is_near(near, quotient(square, divisor, near))
        {
            wrong = wrong.saturating_add(1);
        }
    }
    wrong
}

fn is_near(guess: u64, quotient: u128) -> bool {
    quotient.wrapping_sub(u128::from(guess)) <= 1
}
