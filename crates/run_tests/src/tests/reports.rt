//! Reports of `ks`, `xyz`, `lab` and `diff`.

use super::calls::{answer, assert_answers};
use super::files::{
    LIGHT_HEADER, ONES, even_light, flat, ks_lines, picking_light, table, three_curves,
};
use std::test::Fail;

const RATIOS_OF_P12: &str = "0 X/Xn 0.125000000000..0.125000000000\n\
    Y/Yn 0.125000000000..0.125000000000\nZ/Zn 0.125000000000..0.125000000000\n";

#[test]
fn ks_of_flat_curves(rt: HostRuntime) -> Result<(), Fail> {
    let alloc = rt.alloc();
    let file = flat(alloc)?;
    for (column, pair) in [
        ("p50", "0.250000000000..0.250000000000"),
        ("p30", "0.816666666666..0.816666666667"),
        ("p100", "0.000000000000..0.000000000000"),
        ("p001", "4999.000050000000..4999.000050000000"),
    ] {
        let words = ["ks", "flat.csv", column];
        let got = answer(&rt, alloc, &words, &[("flat.csv", file.as_bytes())])?;
        let lines = ks_lines(alloc, pair)?;
        let want = format!(in alloc; "0 {lines}")?;
        assert_eq!(rt; got.as_str(), want.as_str(), "{column}");
    }
    Ok(())
}

#[test]
fn colours_and_differences(rt: HostRuntime) -> Result<(), Fail> {
    let alloc = rt.alloc();
    let flat = flat(alloc)?;
    let three = three_curves(alloc)?;
    let even = even_light(alloc)?;
    let picking = picking_light(alloc)?;
    let files = [
        ("flat.csv", flat.as_bytes()),
        ("three.csv", three.as_bytes()),
        ("w.csv", even.as_bytes()),
        ("pick.csv", picking.as_bytes()),
    ];
    let rows = [
        ("xyz flat.csv p12 w.csv", RATIOS_OF_P12),
        (
            "lab flat.csv p100 w.csv",
            "0 L 100.000000000000..100.000000000000\na 0.000000000000..0.000000000000\n\
             b 0.000000000000..0.000000000000\n",
        ),
        (
            "lab flat.csv p12 w.csv",
            "0 L 42.000000000000..42.000000000000\na 0.000000000000..0.000000000000\n\
             b 0.000000000000..0.000000000000\n",
        ),
        (
            "lab three.csv q1 pick.csv",
            "0 L 42.000000000000..42.000000000000\na 30.000000000000..30.000000000000\n\
             b 40.000000000000..40.000000000000\n",
        ),
        (
            "lab flat.csv p08 w.csv",
            "0 L 7.226370370364..7.226370370480\na -0.000000000500..0.000000000500\n\
             b -0.000000000200..0.000000000200\n",
        ),
        (
            "diff flat.csv p12 p6 w.csv 20 10",
            "0 DE 5.868584212206..5.868584212215\n",
        ),
        (
            "diff flat.csv p12 p6 w.csv 20 10 5868",
            "8 DE 5.868584212206..5.868584212215\nfail\n",
        ),
        (
            "diff flat.csv p12 p6 w.csv 020 010 000005869",
            "0 DE 5.868584212206..5.868584212215\npass\n",
        ),
        (
            "diff flat.csv p100 p100 w.csv 20 10 0",
            "0 DE 0.000000000000..0.000000000000\npass\n",
        ),
        (
            "diff three.csv q3 q3 pick.csv 20 10 0",
            "9 DE 0.000000000000..0.000001000000\nundecided\n",
        ),
        (
            "diff three.csv q1 q1 pick.csv 20 10 0",
            "0 DE 0.000000000000..0.000000000000\npass\n",
        ),
        (
            "diff flat.csv p08 p08 w.csv 20 10 0",
            "9 DE 0.000000000000..0.000003316625\nundecided\n",
        ),
        (
            "diff flat.csv p08 p12 w.csv 20 10",
            "0 DE 34.025077915380..34.025077915497\n",
        ),
        (
            "diff three.csv q1 q2 pick.csv 20 10",
            "0 DE 14.772838418112..14.772838418355\n",
        ),
    ];
    assert_answers(&rt, alloc, &files, &rows)
}

#[test]
fn other_weights(rt: HostRuntime) -> Result<(), Fail> {
    let alloc = rt.alloc();
    let flat = flat(alloc)?;
    for (header, at, other, end, want) in [
        (
            "nm,X,Y,Z\n390,1,1,1",
            [ONES, ONES, ONES],
            ONES,
            "white,32,32,32\n",
            RATIOS_OF_P12,
        ),
        (
            LIGHT_HEADER,
            ["-1,1,1", ONES, ONES],
            ONES,
            "white,29,31,31\n",
            RATIOS_OF_P12,
        ),
        (
            LIGHT_HEADER,
            ["0,0,1", "0,1,0", "-1,0,0"],
            "0,0,0",
            "white,1,1,1\n",
            "0 X/Xn 0.000000000000..0.000000000000\nY/Yn 0.125000000000..0.125000000000\n\
             Z/Zn 0.125000000000..0.125000000000\n",
        ),
    ] {
        let light = table(alloc, header, at, other, 700, end)?;
        let files = [("flat.csv", flat.as_bytes()), ("w.csv", light.as_bytes())];
        let rows = [("xyz flat.csv p12 w.csv", want)];
        assert_answers(&rt, alloc, &files, &rows)?;
    }
    Ok(())
}
