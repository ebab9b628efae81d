ghost use Rattle.std.specs.Prelude.{ℕ, ℤ, pos, ◌*◌, ◌≤ℤ◌};
ghost use Rattle.interval_specs.specs.Ranges.{MagnitudeUpTo};

use crate::intervals::ends;
use cielab_bounds::{Difference, Lab, laws};
use cmc_bounds::Cmc;
use fix_bounds::{Base, Iv, Quick, Scale};

pub(crate) fn at<S: Scale>(parts: i128) -> Iv<S>
    requires not_below { pos 0 ≤ℤ parts }
    requires magnitude { parts ≤ℤ pos (1000 * S.unit) }
    ensures { MagnitudeUpTo (1000 * S.unit) result }
{
    Iv::of_ends(parts, parts)
}

pub(crate) fn colour<S: Scale>(l: Iv<S>, a: Iv<S>, b: Iv<S>) -> Lab<S>
    requires l { MagnitudeUpTo (1000 * S.unit) l }
    requires a { MagnitudeUpTo (1000 * S.unit) a }
    requires b { MagnitudeUpTo (1000 * S.unit) b }
{
    Lab { l, a, b }
}

#[test]
fn hue_difference(rt: HostRuntime) {
    // both of lightness 42 and chroma 50, so that the hue alone differs
    let l = at::<Base>(42_000_000_000_000);
    let a = at::<Base>(30_000_000_000_000);
    let b = at::<Base>(40_000_000_000_000);
    let standard = colour(l, a, b);
    let sample = colour(l, b, a);
    let rule = Cmc { l10: 20, c10: 10 };
    let kept = rule.keep(&standard);
    let values = [
        ("S_C", ends(kept.sc)),
        ("S_H", ends(kept.sh)),
        ("dE", ends(rule.delta(&kept, &sample))),
        (
            "dE by the law",
            ends(laws::difference(&rule, &standard, &sample)),
        ),
    ];
    let expected = [
        ("S_C", (2_565_492_447_129, 2_565_492_447_130)),
        ("S_H", (957_306_593_577, 957_306_593_592)),
        ("dE", (14_772_838_418_112, 14_772_838_418_355)),
        ("dE by the law", (14_772_838_418_112, 14_772_838_418_355)),
    ];
    assert_eq!(rt; values, expected);
}

#[test]
fn grey_at_the_coarser_scale(rt: HostRuntime) {
    let grey = colour(at::<Quick>(1_600_000_000), at::<Quick>(0), at::<Quick>(0));
    let rule = Cmc { l10: 10, c10: 10 };
    let kept = rule.keep(&grey);
    assert_eq!(rt; ends(kept.c1), (0, 0));
    assert_eq!(rt; ends(rule.delta(&kept, &grey)), (0, 0));
    assert!(rt; kept.clone().is_ok() && rule.clone().is_ok());
}
