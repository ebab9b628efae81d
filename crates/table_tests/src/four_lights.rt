ghost use Rattle.std.specs.Prelude.{◌≤◌};

use crate::files::{table, weights};
use cmc_bounds::Cmc;
use fix_bounds::{Base, Iv};
use metamerism::{
    Deltas, Light, Lights, Verdict, corrected_light, decide, delta_of, deltas, light, verdict,
};
use spectral_tables::{Curve, Spectrum, Weights};
use std::test::Fail;

// the spectrum of a curve with one reflectance at 400 nm and another from 410 nm on
fn stepped(first: u32, others: u32) -> Spectrum<Base>
    requires first { (100 ≤ first) × (first ≤ 1000000) }
    requires others { (100 ≤ others) × (others ≤ 1000000) }
{
    let mut millionths = [others; 31];
    millionths[0] = first;
    Curve::of(&millionths).spectrum()
}

fn ends(x: Iv<Base>) -> (i128, i128) {
    (x.lo(), x.hi())
}

// the light of these weights by CMC(2:1), which corrects samples by a first light, if it is given
fn light_of(
    weights: &Weights,
    first: Option<&Weights>,
    tolerance: u32,
    standard: &Spectrum<Base>,
) -> Option<Light<Base, Cmc>> {
    let rule = Cmc { l10: 20, c10: 10 };
    if tolerance > 100_000 || standard.waves() != weights.waves() {
        return None;
    }
    let Some(first) = first else {
        return Some(light(weights, tolerance, rule, standard));
    };
    if standard.waves() != first.waves() {
        return None;
    }
    Some(corrected_light(weights, tolerance, rule, standard, first))
}

// whether the difference under a light alone is the one under all lights together
fn is_same(
    lights: &Lights<Base, Cmc>,
    number: u8,
    together: &Deltas<Base>,
    sample: &Spectrum<Base>,
) -> bool {
    if number == 0 || lights.count() < number {
        return false;
    }
    let light = lights.get(number);
    if light.weights.waves() != sample.waves() {
        return false;
    }
    match together.each.as_slice().get(usize::from(number) - 1) {
        Some(delta) => ends(*delta) == ends(delta_of(light, sample)),
        None => false,
    }
}

// under four lights: whether each difference is the one under its light alone, the third one, and
// the verdict
fn judged(
    lights: (
        Light<Base, Cmc>,
        Light<Base, Cmc>,
        Light<Base, Cmc>,
        Light<Base, Cmc>,
    ),
    sample: &Spectrum<Base>,
) -> Option<(bool, (i128, i128), Verdict)> {
    let (first, second, third, fourth) = lights;
    let waves = first.weights.waves();
    if second.weights.waves() != waves
        || third.weights.waves() != waves
        || fourth.weights.waves() != waves
        || sample.waves() != waves
    {
        return None;
    }
    let lights = Lights::four(first, second, third, fourth);
    let together = deltas(&lights, sample);
    let same = is_same(&lights, 1, &together, sample)
        && is_same(&lights, 2, &together, sample)
        && is_same(&lights, 3, &together, sample)
        && is_same(&lights, 4, &together, sample);
    let verdict = verdict(&lights, &together);
    let third = together.each.as_slice().get(2)?;
    Some((same, ends(*third), verdict))
}

// Tables of a light that has 400 nm alone and of one that has all wavelengths but that, where a
// spectrum has its first reflectance and its other one as ratios; and of a light that has 400 nm
// alone, of which X is negative.
const VIOLET: [&str; 4] = ["nm,X,Y,Z", "1,1,1", "0,0,0", "white,1,1,1"];

const OTHERS: [&str; 4] = ["nm,X,Y,Z", "0,0,0", "1,1,1", "white,30,30,30"];

const NEGATIVE: [&str; 4] = ["nm,X,Y,Z", "-1,1,1", "0,0,0", "white,1,1,1"];

// of greys with ratios 0.125 and 0.064
const GREY_DELTA: (i128, i128) = (5_868_584_212_206, 5_868_584_212_215);

#[test]
fn corrected_samples(rt: HostRuntime) -> Result<(), Fail> {
    let violet_text = table(rt.alloc(), VIOLET, 31)?;
    let violet = weights(rt.alloc(), violet_text.as_str())
        .ok()
        .ok_or("no weights")?;
    let others_text = table(rt.alloc(), OTHERS, 31)?;
    let others = weights(rt.alloc(), others_text.as_str())
        .ok()
        .ok_or("no weights")?;
    // of a standard and a sample the ratios under the first light and under the other
    for (standard, sample, want) in [
        ((500_000, 125_000), (1_000_000, 128_000), GREY_DELTA),
        ((125_000, 125_000), (64_000, 64_000), (0, 0)),
    ] {
        assert!(rt; 100 <= standard.0 && standard.0 <= 1_000_000);
        assert!(rt; 100 <= standard.1 && standard.1 <= 1_000_000);
        assert!(rt; 100 <= sample.0 && sample.0 <= 1_000_000);
        assert!(rt; 100 <= sample.1 && sample.1 <= 1_000_000);
        let of = stepped(standard.0, standard.1);
        let light = light_of(&others, Some(&violet), 0, &of).ok_or("no light")?;
        let sample = stepped(sample.0, sample.1);
        assert!(rt; sample.waves() == light.weights.waves());
        assert_eq!(rt; ends(delta_of(&light, &sample)), want);
    }
    Ok(())
}

// A corrected ratio of 10,000 is cut to 3.
#[test]
fn a_cut_ratio(rt: HostRuntime) -> Result<(), Fail> {
    let violet_text = table(rt.alloc(), VIOLET, 31)?;
    let violet = weights(rt.alloc(), violet_text.as_str())
        .ok()
        .ok_or("no weights")?;
    let others_text = table(rt.alloc(), OTHERS, 31)?;
    let others = weights(rt.alloc(), others_text.as_str())
        .ok()
        .ok_or("no weights")?;
    let of = stepped(1_000_000, 1_000_000);
    let light = light_of(&others, Some(&violet), 17_309, &of).ok_or("no light")?;
    let sample = stepped(100, 1_000_000);
    assert!(rt; sample.waves() == light.weights.waves());
    let delta = delta_of(&light, &sample);
    assert!(rt; delta.lo() <= 17_308_984_402_733 && 17_308_984_402_734 <= delta.hi());
    assert!(rt; delta.hi() <= 17_308_984_402_800);
    assert_eq!(rt; decide(&light, delta), Some(false));
    Ok(())
}

// Where X under the first light is 0, the corrected X is any ratio, and Y and Z are as said.
#[test]
fn a_divisor_of_0(rt: HostRuntime) -> Result<(), Fail> {
    let negative_text = table(rt.alloc(), NEGATIVE, 31)?;
    let negative = weights(rt.alloc(), negative_text.as_str())
        .ok()
        .ok_or("no weights")?;
    let others_text = table(rt.alloc(), OTHERS, 31)?;
    let others = weights(rt.alloc(), others_text.as_str())
        .ok()
        .ok_or("no weights")?;
    let of = stepped(125_000, 125_000);
    let light = light_of(&others, Some(&negative), 50_000, &of).ok_or("no light")?;
    let sample = stepped(64_000, 64_000);
    assert!(rt; sample.waves() == light.weights.waves());
    let delta = delta_of(&light, &sample);
    assert!(rt; delta.lo() == 0 && 50_000_000_000_000 < delta.hi());
    assert_eq!(rt; decide(&light, delta), None);
    Ok(())
}

// Of the greys of each light, with ratios 0.5 and 1, the differences are 8.9929.. under the first
// light and GREY_DELTA under the corrected third and fourth.
#[test]
fn four_lights(rt: HostRuntime) -> Result<(), Fail> {
    let violet_text = table(rt.alloc(), VIOLET, 31)?;
    let violet = weights(rt.alloc(), violet_text.as_str())
        .ok()
        .ok_or("no weights")?;
    let others_text = table(rt.alloc(), OTHERS, 31)?;
    let others = weights(rt.alloc(), others_text.as_str())
        .ok()
        .ok_or("no weights")?;
    let of = stepped(500_000, 125_000);
    let sample = stepped(1_000_000, 128_000);
    for (tolerances, want) in [
        ((8_993, 1_000, 5_869, 5_869), Verdict::Pass),
        ((8_992, 1_000, 5_868, 0), Verdict::Fail(1)),
        ((8_993, 1_000, 5_868, 0), Verdict::Fail(3)),
        ((8_993, 1_000, 5_869, 5_868), Verdict::Fail(4)),
    ] {
        let first = light_of(&violet, None, tolerances.0, &of).ok_or("no light")?;
        let second = light_of(&others, None, tolerances.1, &of).ok_or("no light")?;
        let third = light_of(&others, Some(&violet), tolerances.2, &of).ok_or("no light")?;
        let fourth = light_of(&others, Some(&violet), tolerances.3, &of).ok_or("no light")?;
        let got = judged((first, second, third, fourth), &sample);
        assert_eq!(rt; got, Some((true, GREY_DELTA, want)));
    }
    Ok(())
}
