use crate::files::{table, weights};
use fix_bounds::{Base, Iv};
use spectral_tables::{Curve, Spectrum};
use std::test::Fail;
use tristimulus::ratios;

fn is_exactly(ratio: Iv<Base>, parts: i128) -> bool {
    ratio.lo() == parts && ratio.hi() == parts
}

#[test]
fn an_even_sample(rt: HostRuntime) -> Result<(), Fail> {
    let eighth = 125_000_000_000;
    let sample: Spectrum<Base> = Curve::of(&[125_000; 31]).spectrum();
    let plain = "nm,X,Y,Z";
    let cases = [
        (plain, "1,1,1", "1,1,1", "white,31,31,31", eighth),
        (
            "nm,X,Y,Z\n390,1,1,1",
            "1,1,1",
            "1,1,1",
            "white,32,32,32",
            eighth,
        ),
        (plain, "-1,1,1", "1,1,1", "white,29,31,31", eighth),
        (plain, "-1,1,1", "0,1,1", "white,1,31,31", 0),
    ];
    for (header, first, values, white, x) in cases {
        let text = table(rt.alloc(), [header, first, values, white], 31)?;
        let weights = weights(rt.alloc(), text.as_str()).ok().ok_or("no weights")?;
        assert!(rt; sample.waves() == weights.waves());
        let ratios = ratios(&sample, &weights);
        assert!(rt; is_exactly(ratios.x, x));
        assert!(rt; is_exactly(ratios.y, eighth) && is_exactly(ratios.z, eighth));
    }
    Ok(())
}
