ghost use Rattle.std.specs.Prelude.{◌≡◌, replicate};
ghost use Rattle.spectral_tables.specs.Curve.{IsReflectance};

use super::*;
use crate::near::{near_slope, near_value};
use arrayvec::ArrayVec;
use fix_bounds::{Base, Iv, Quick, Scale};
use spectral_tables::Curve;

fn ends<S: Scale>(iv: Iv<S>) -> (i128, i128) {
    (iv.lo(), iv.hi())
}

// A cloth that reflects equally much at each wavelength.
fn even(millionths: u32) -> Curve
    requires { IsReflectance millionths }
    ensures { result ≡ replicate 31 millionths }
{
    Curve::of(&[millionths; 31])
}

#[test]
fn a_dye_of_one_dyeing(rt: HostRuntime) {
    let mut dyeings = ArrayVec::new();
    dyeings.push((1000, even(300_000)));
    let dye = Dye::of(Calibration::Line, 10, even(500_000), dyeings);
    let mut lighter = ArrayVec::new();
    lighter.push((1000, even(1_000_000)));
    let lightening = Dye::of(Calibration::Line, 10, even(500_000), lighter);
    for (name, iv, lo, hi) in [
        ("K/S", ks::<Base>(300_000), 816_666_666_666, 816_666_666_667),
        ("no step", contribution(&dye, 0, 7), 0, 0),
        (
            "a step",
            contribution(&dye, 1, 0),
            5_666_666_666,
            5_666_666_667,
        ),
        (
            "a hundred",
            contribution(&dye, 100, 30),
            566_666_666_666,
            566_666_666_667,
        ),
        (
            "0 to 4",
            contribution_range(&dye, 0, 4, 30),
            0,
            22_666_666_667,
        ),
        (
            "below the substrate",
            contribution(&lightening, 100, 7),
            0,
            0,
        ),
    ] {
        assert_eq!(rt; ends(iv), (lo, hi), "at {name}");
    }
    assert_eq!(rt; ends(contribution::<Quick>(&dye, 1, 0)), (566_666, 566_667));
    assert_eq!(rt; (dye.waves(), dye.step()), (31, 10));
}

// The node of 1000 units lies on the substrate itself, so the line falls from 500 units on.
#[test]
fn a_broken_line(rt: HostRuntime) {
    let mut dyeings = ArrayVec::new();
    dyeings.push((1000, even(500_000)));
    dyeings.push((500, even(300_000)));
    let dye = Dye::of(Calibration::Broken, 10, even(500_000), dyeings);
    assert_eq!(rt;
        ends::<Base>(contribution(&dye, 75, 7)),
        (283_333_333_333, 283_333_333_334)
    );
    assert_eq!(rt;
        ends::<Base>(contribution_units(&dye, 250, 1000, 0)),
        (0, 566_666_666_667)
    );
    assert_eq!(rt; ends::<Base>(contribution(&dye, 100, 30)), (0, 0));
    assert_eq!(rt; ends::<Base>(contribution(&dye, 200, 7)), (0, 0));
    assert_eq!(rt; ends::<Base>(addition_range(&dye, 50, 0, 0, 7)), (0, 0));
    assert_eq!(rt;
        ends::<Base>(addition_range(&dye, 50, 50, 50, 7)),
        (-566_666_666_667, -566_666_666_666)
    );
    assert_eq!(rt;
        ends(contribution::<Quick>(&dye, 75, 7)),
        (28_333_333, 28_333_334)
    );
}

// Past the last node the line goes on through the origin: its slope is that node's share.
#[test]
fn past_the_last_node(rt: HostRuntime) {
    let mut dyeings = ArrayVec::new();
    dyeings.push((500, even(300_000)));
    let dye = Dye::of(Calibration::Broken, 10, even(500_000), dyeings);
    assert_eq!(rt;
        ends::<Base>(contribution(&dye, 150, 7)),
        (1_699_999_999_998, 1_700_000_000_001)
    );
    assert_eq!(rt;
        ends::<Base>(contribution_units(&dye, 40_000, 40_000, 7)),
        (45_333_333_333_280, 45_333_333_333_360)
    );
}

/// A wrong guess only costs time, so no clause rules it out: this test counts the wrong ones, for
/// numerators up to 2^56 parts and the squares of four dyeings of 250 to 2,000 units.
#[test]
fn guesses_are_mostly_right(rt: HostRuntime) {
    let squares: u64 = 5_312_500;
    let mut drawn: u64 = 1;
    let mut wrong: u32 = 0;
    for units in 1..4000u32 {
        drawn = drawn
            .wrapping_mul(6_364_136_223_846_793_005)
            .wrapping_add(1_442_695_040_888_963_407);
        let numerator = u128::from(drawn / 0x100);
        let near = near_value(near_slope(numerator, squares), units);
        let share = numerator.wrapping_mul(u128::from(units)) / u128::from(squares);
        if share.wrapping_sub(u128::from(near)) > 1 {
            wrong = wrong.saturating_add(1);
        }
    }
    assert!(rt; wrong < 4);
}
