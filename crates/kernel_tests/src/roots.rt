use crate::intervals::ends;
use fix_bounds::{Base, Iv, Quick};
use root_bounds::{cbrt_ceil, cbrt_floor, cbrt_iv, cbrt_radicand, sqrt_ceil, sqrt_floor, sqrt_iv};

#[test]
fn roots_at_the_ends_of_the_range(rt: HostRuntime) {
    assert_eq!(rt; (sqrt_floor(0), sqrt_ceil(0)), (0, 0));
    assert_eq!(rt; sqrt_floor(u128::MAX), 18_446_744_073_709_551_615);
    assert_eq!(rt; sqrt_ceil(u128::MAX), 18_446_744_073_709_551_616);
    let cube: u128 = 85_070_591_730_234_615_865_843_651_857_942_052_864;
    assert_eq!(rt; cbrt_floor(cube), 4_398_046_511_104);
    assert_eq!(rt; cbrt_ceil(cube + 1), 4_398_046_511_105);
}

#[test]
fn roots_of_intervals(rt: HostRuntime) {
    // the roots of 2 lie between two numbers of the scale
    let two: Iv<Base> = Iv::of_ends(2_000_000_000_000, 2_000_000_000_000);
    assert_eq!(rt; ends(sqrt_iv(two)), (1_414_213_562_373, 1_414_213_562_374));
    assert_eq!(rt; ends(cbrt_iv(two)), (1_259_921_049_894, 1_259_921_049_895));
    let wide: Iv<Quick> = Iv::of_ends(12_500_000, 200_000_000);
    assert_eq!(rt; ends(cbrt_iv(wide)), (50_000_000, 125_992_105));
    assert_eq!(rt; ends(sqrt_iv(wide)), (35_355_339, 141_421_357));
    assert_eq!(rt; cbrt_radicand::<Quick>(3), 30_000_000_000_000_000);
}
