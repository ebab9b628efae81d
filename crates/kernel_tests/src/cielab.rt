ghost use Rattle.std.specs.Prelude.{◌≡◌, ℕ, pos, ◌*◌, ◌^◌, ◌≤ℤ◌};
ghost use Rattle.interval_specs.specs.Operations.{hull_of};
ghost use Rattle.interval_specs.proofs.Laws.{hull_encloses};
ghost use Rattle.interval_specs.specs.Ranges.{UpTo};

use crate::intervals::ends;
use cielab_bounds::{Difference, Formula, Lab, f_iv, lab, laws};
use fix_bounds::{Base, Iv, Quick, Ratios, Scale};

fn at<S: Scale>(parts: i128) -> Iv<S>
    requires not_below { pos 0 ≤ℤ parts }
    requires magnitude { parts ≤ℤ pos (3 * S.unit) }
    ensures { UpTo (3 * S.unit) result }
{
    Iv::of_ends(parts, parts)
}

fn colour<S: Scale>(x: Iv<S>, y: Iv<S>, z: Iv<S>) -> Lab<S>
    requires x { UpTo (3 * S.unit) x }
    requires y { UpTo (3 * S.unit) y }
    requires z { UpTo (3 * S.unit) z }
{
    lab(&Ratios { x, y, z })
}

#[test]
fn colours(rt: HostRuntime) {
    // the white itself, and a grey of ratios 0.008, which is on the linear part of f
    let white = colour::<Base>(
        at(1_000_000_000_000),
        at(1_000_000_000_000),
        at(1_000_000_000_000),
    );
    assert_eq!(rt; ends(white.l), (100_000_000_000_000, 100_000_000_000_000));
    assert_eq!(rt; (ends(white.a), ends(white.b)), ((0, 0), (0, 0)));
    assert!(rt; matches!(white.clone(), Ok(copy) if ends(copy.l) == ends(white.l)));
    let dark = colour::<Base>(at(8_000_000_000), at(8_000_000_000), at(8_000_000_000));
    assert_eq!(rt; ends(dark.l), (7_226_370_370_364, 7_226_370_370_480));
    assert_eq!(rt; (ends(dark.a), ends(dark.b)), ((-500, 500), (-200, 200)));
}

#[test]
fn colour_at_the_coarser_scale(rt: HostRuntime) {
    // ratios whose cube roots are 0.56, 0.5 and 0.3
    let red = colour::<Quick>(at(17_561_600), at(12_500_000), at(2_700_000));
    assert_eq!(rt; ends(red.l), (4_200_000_000, 4_200_000_000));
    assert_eq!(rt;
        (ends(red.a), ends(red.b)),
        (
            (3_000_000_000, 3_000_000_000),
            (4_000_000_000, 4_000_000_000)
        )
    );
}

#[test]
fn ends_on_both_parts(rt: HostRuntime) {
    // 216/24389 lies between these two ends: the lower end is on the linear part of f, the upper
    // end on the cube root
    let bent: Iv<Quick> = f_iv(Iv::of_ends(885_645, 885_646));
    assert_eq!(rt; ends(bent), (20_689_653, 20_689_662));
}

/// A test difference: the least interval that holds both lightnesses.
#[derive(Drop)]
struct Lightnesses;

impl Formula for Lightnesses {
    ghost value = { λ _ n p q. hull_of p.l q.l };

    ghost keeps_enclosing = { λ _ n m p q p' q' _ _ _ _ _ _ hp hq.
        hull_encloses m p.l q.l p'.l q'.l hp.l hq.l };
}

impl<S: Scale> Difference<S> for Lightnesses {
    type Kept = Iv<S>;

    ghost stands_for = { λ _ kept p. kept ≡ p.l };

    fn keep(&self, standard: &Lab<S>) -> Iv<S> {
        standard.l
    }

    fn delta(&self, kept: &Iv<S>, sample: &Lab<S>) -> Iv<S> {
        kept.hull(sample.l)
    }
}

#[test]
fn difference(rt: HostRuntime) {
    let white = colour::<Quick>(at(100_000_000), at(100_000_000), at(100_000_000));
    let red = colour::<Quick>(at(17_561_600), at(12_500_000), at(2_700_000));
    let both = laws::difference(&Lightnesses, &white, &red);
    assert_eq!(rt; ends(both), (4_200_000_000, 10_000_000_000));
}
