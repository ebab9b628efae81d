use crate::cmc::{at, colour};
use crate::intervals::ends;
use cielab_bounds::{Difference, Lab, laws};
use fix_bounds::{Base, Quick};
use other_deltas::{Cie94, Kind94, delta};

#[test]
fn hue_difference_for_textiles(rt: HostRuntime) {
    // both of lightness 42 and chroma 50, so that the hue alone differs
    let l = at::<Base>(42_000_000_000_000);
    let a = at::<Base>(30_000_000_000_000);
    let b = at::<Base>(40_000_000_000_000);
    let standard = colour(l, a, b);
    let sample = colour(l, b, a);
    let rule = Cie94 {
        kind: Kind94::Textile,
    };
    let kept = rule.keep(&standard);
    let values = [
        ("S_C", ends(kept.sc)),
        ("S_H", ends(kept.sh)),
        ("dE", ends(rule.delta(&kept, &sample))),
        (
            "dE by the law",
            ends(laws::difference(&rule, &standard, &sample)),
        ),
    ];
    let expected = [
        ("S_C", (3_400_000_000_000, 3_400_000_000_000)),
        ("S_H", (1_700_000_000_000, 1_700_000_000_000)),
        ("dE", (8_318_903_308_076, 8_318_903_308_078)),
        ("dE by the law", (8_318_903_308_076, 8_318_903_308_078)),
    ];
    assert_eq!(rt; values, expected);
}

/// The ends of the difference, cut to millionths.
fn millionths(kind: Kind94, standard: &Lab<Base>, sample: &Lab<Base>) -> (i128, i128) {
    let (low, high) = ends(laws::difference(&Cie94 { kind }, standard, sample));
    (low / 1_000_000, high / 1_000_000)
}

#[test]
fn all_differences_of_both_kinds(rt: HostRuntime) {
    let standard = colour::<Base>(
        at(60_000_000_000_000),
        at(20_000_000_000_000),
        at(30_000_000_000_000),
    );
    let sample = colour::<Base>(
        at(55_000_000_000_000),
        at(35_000_000_000_000),
        at(44_000_000_000_000),
    );
    // the formula of CIE 116 in floating point gives 8.191607711 and 9.494893987
    let textile = millionths(Kind94::Textile, &standard, &sample);
    assert_eq!(rt; textile, (8_191_607, 8_191_607));
    let graphic = millionths(Kind94::Graphic, &standard, &sample);
    assert_eq!(rt; graphic, (9_494_893, 9_494_893));
}

#[test]
fn grey_at_the_coarser_scale(rt: HostRuntime) {
    let grey = colour::<Quick>(at(1_600_000_000), at(0), at(0));
    let rule = Cie94 {
        kind: Kind94::Graphic,
    };
    let kept = rule.keep(&grey);
    assert_eq!(rt; ends(kept.sh_square), (100_000_000, 100_000_000));
    assert_eq!(rt; ends(delta(&rule, &kept, &grey)), (0, 0));
    assert!(rt; kept.clone().is_ok() && rule.clone().is_ok());
}
