ghost use Rattle.std.specs.Prelude.{◌≤◌};

use crate::files::{table, weights};
use cielab_bounds::Difference;
use cmc_bounds::Cmc;
use fix_bounds::{Base, Iv};
use metamerism::{Lights, Verdict, delta_of, deltas, judge_light, laws, light, verdict};
use spectral_tables::{Curve, Spectrum, Weights};
use std::test::Fail;

fn even(millionths: u32) -> Spectrum<Base>
    requires { (100 ≤ millionths) × (millionths ≤ 1000000) }
{
    Curve::of(&[millionths; 31]).spectrum()
}

fn ends(x: Iv<Base>) -> (i128, i128) {
    (x.lo(), x.hi())
}

// the differences under one light alone and under the second of two lights, and the verdict on both
fn judged<D: Difference<Base>>(
    weights: &Weights,
    tolerances: (u32, u32),
    rules: (D, D, D),
    standard: &Spectrum<Base>,
    sample: &Spectrum<Base>,
) -> Option<((i128, i128), (i128, i128), Verdict)> {
    if tolerances.0 > 100_000 || tolerances.1 > 100_000 {
        return None;
    }
    if standard.waves() != weights.waves() || sample.waves() != weights.waves() {
        return None;
    }
    let alone = Lights::one(light(weights, tolerances.0, rules.0, standard));
    let first = delta_of(alone.get(alone.count()), sample);
    let again = light(weights, tolerances.0, rules.1, standard);
    let second = light(weights, tolerances.1, rules.2, standard);
    let both = Lights::two(again, second);
    let last = delta_of(both.get(both.count()), sample);
    let verdict = verdict(&both, &deltas(&both, sample));
    Some((ends(first), ends(last), verdict))
}

#[test]
fn verdicts(rt: HostRuntime) -> Result<(), Fail> {
    let parts = ["nm,X,Y,Z", "1,1,1", "1,1,1", "white,31,31,31"];
    let text = table(rt.alloc(), parts, 31)?;
    let weights = weights(rt.alloc(), text.as_str()).ok().ok_or("no weights")?;
    let rule = Cmc { l10: 20, c10: 10 };
    laws::finer(&rule);
    laws::narrower(&rule);
    let grey_delta = (5_868_584_212_206, 5_868_584_212_215);
    for (standard, sample, tolerances, delta, want) in [
        (125_000, 64_000, (5869, 5869), grey_delta, Verdict::Pass),
        (125_000, 64_000, (5869, 5868), grey_delta, Verdict::Fail(2)),
        (125_000, 64_000, (5868, 0), grey_delta, Verdict::Fail(1)),
        (1_000_000, 1_000_000, (0, 0), (0, 0), Verdict::Pass),
        (8_000, 8_000, (1, 0), (0, 3_316_625), Verdict::Undecided),
    ] {
        assert!(rt; 100 <= standard && standard <= 1_000_000);
        assert!(rt; 100 <= sample && sample <= 1_000_000);
        let rules = (rule, rule, rule);
        let got = judged(&weights, tolerances, rules, &even(standard), &even(sample));
        assert_eq!(rt; got, Some((delta, delta, want)));
    }
    assert_eq!(rt; judge_light(0, 3, Iv::of_ends(0, 0)), Verdict::Pass);
    assert_eq!(rt;
        judge_light(1, 3, Iv::of_ends(0, 1_000_000_001)),
        Verdict::Undecided
    );
    let above = Iv::of_ends(1_000_000_001, 1_000_000_001);
    assert_eq!(rt; judge_light(1, 3, above), Verdict::Fail(3));
    Ok(())
}
