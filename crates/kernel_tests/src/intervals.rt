use fix_bounds::{Base, Iv, Quick, Ratios, Scale, unit};

/// The two ends of an interval.
pub(crate) fn ends<S: Scale>(iv: Iv<S>) -> (i128, i128) {
    (iv.lo(), iv.hi())
}

#[test]
fn operations(rt: HostRuntime) {
    let around = Iv::<Base>::of_ends(-1_500_000_000_000, 2_000_000_000_001);
    let third = Iv::<Base>::of_ends(333_333_333_333, 333_333_333_334);
    let below = Iv::<Base>::of_ends(-7, -3);
    for (name, iv, lo, hi) in [
        (
            "49/60",
            Iv::of_ratio(490_000_000_000, 600_000_000_000),
            816_666_666_666,
            816_666_666_667,
        ),
        (
            "sum",
            around.add(third),
            -1_166_666_666_667,
            2_333_333_333_335,
        ),
        (
            "difference",
            around.sub(third),
            -1_833_333_333_334,
            1_666_666_666_668,
        ),
        (
            "product",
            around.mul(third),
            -500_000_000_001,
            666_666_666_669,
        ),
        (
            "product of mixed",
            around.mul(around),
            -3_000_000_000_002,
            4_000_000_000_005,
        ),
        (
            "quotient",
            around.div(third),
            -4_500_000_000_005,
            6_000_000_000_010,
        ),
        ("square", around.square(), 0, 4_000_000_000_005),
        (
            "multiple",
            around.scale_by(-3),
            -6_000_000_000_003,
            4_500_000_000_000,
        ),
        (
            "fraction",
            around.ratio_up(2, 7),
            -428_571_428_572,
            571_428_571_429,
        ),
        ("magnitude", around.abs(), 0, 2_000_000_000_001),
        (
            "cut from below",
            around.cut_low(1),
            1_000_000_000_000,
            2_000_000_000_001,
        ),
        (
            "cut from above",
            around.cut_high(-1),
            -1_500_000_000_000,
            -1_000_000_000_000,
        ),
        ("hull", below.hull(third), -7, 333_333_333_334),
    ] {
        assert_eq!(rt; ends(iv), (lo, hi), "at {name}");
    }
}

#[test]
fn quick_scale(rt: HostRuntime) {
    assert_eq!(rt; unit::<Quick>(), 100_000_000);
    assert_eq!(rt; ends(Iv::<Quick>::default()), (0, 0));
    let third = Iv::<Quick>::of_ratio(-1, 3);
    assert_eq!(rt; ends(third), (-33_333_334, -33_333_333));
    let half = Iv::<Quick>::of_ends(50_000_000, 50_000_001);
    assert_eq!(rt; ends(half.mul(half)), (25_000_000, 25_000_002));
    let ratios = Ratios {
        x: half,
        y: half,
        z: half,
    };
    let copy = ratios.clone().expect(&rt, "a copy takes no memory");
    assert_eq!(rt; ends(copy.y), ends(half));
}
