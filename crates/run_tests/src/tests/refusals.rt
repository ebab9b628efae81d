//! Words that have no listed form, and files that are refused.

use super::calls::{answer, assert_answers};
use super::files::{
    FLAT_HEADER, FLAT_VALUES, LIGHT_HEADER, ONES, even_light, flat, flat_like, table,
};
use std::test::Fail;

const USAGE: &str = "1 usage: dye ks CURVES COLUMN\n       dye xyz CURVES COLUMN WEIGHTS\n\
    \x20      dye lab CURVES COLUMN WEIGHTS\n\
    \x20      dye diff CURVES STANDARD SAMPLE WEIGHTS L10 C10 [TOL]\n\
    \x20      dye show JOB STEPS\n       dye predict JOB CERT\n       dye correct JOB CERT\n\
    \x20      dye check JOB CERT\n       dye demo NUMBER\n";

#[test]
fn words_of_no_form(rt: HostRuntime) -> Result<(), Fail> {
    let alloc = rt.alloc();
    let none = answer(&rt, alloc, &[], &[])?;
    assert_eq!(rt; none.as_str(), USAGE);
    let rows = [
        ("kS flat.csv p50", USAGE),
        ("ks  p50", USAGE),
        ("ks flat.csv", USAGE),
        ("ks flat.csv p50 p30", USAGE),
        ("xyz flat.csv p50", USAGE),
        ("lab flat.csv p50 ", USAGE),
        ("diff flat.csv p12 p6 w.csv 20", USAGE),
        ("diff flat.csv p12 p6 w.csv 0 10", USAGE),
        ("diff flat.csv p12 p6 w.csv 20 101", USAGE),
        ("diff flat.csv p12 p6 w.csv +20 10", USAGE),
        ("diff flat.csv p12 p6 w.csv 20 10 100001", USAGE),
        ("diff flat.csv p12 p6 w.csv 20 10 0000000001", USAGE),
        ("diff flat.csv p12 p6 w.csv 20 10 1 1", USAGE),
        ("show b.toml", USAGE),
        ("show b.cert 0,1", USAGE),
        ("show  0,1", USAGE),
        ("show b.toml 0,1 1", USAGE),
        ("--help", USAGE),
    ];
    assert_answers(&rt, alloc, &[], &rows)
}

#[test]
fn missing_files_and_columns(rt: HostRuntime) -> Result<(), Fail> {
    let alloc = rt.alloc();
    let flat = flat(alloc)?;
    let light = even_light(alloc)?;
    let files = [("flat.csv", flat.as_bytes()), ("w.csv", light.as_bytes())];
    let rows = [
        ("ks none.csv p50", "2 unreadable none.csv\n"),
        ("lab flat.csv p12 none.csv", "2 unreadable none.csv\n"),
        ("xyz none.csv p12 gone.csv", "2 unreadable none.csv\n"),
        ("ks flat.csv zz", "3 refused flat.csv no column zz\n"),
        (
            "diff flat.csv zz yy w.csv 20 10",
            "3 refused flat.csv no column zz\n",
        ),
        (
            "diff flat.csv p12 yy w.csv 20 10",
            "3 refused flat.csv no column yy\n",
        ),
    ];
    assert_answers(&rt, alloc, &files, &rows)
}

#[test]
fn faults_of_curves(rt: HostRuntime) -> Result<(), Fail> {
    let alloc = rt.alloc();
    for (header, first, last, want) in [
        (
            FLAT_HEADER,
            "0.0099,50,30,12.5,6.4,0.8,0.01",
            700,
            "3 refused flat.csv row 2 column 2 OutOfRange\n",
        ),
        (
            FLAT_HEADER,
            "100.0001,50,30,12.5,6.4,0.8,0.01",
            700,
            "3 refused flat.csv row 2 column 2 OutOfRange\n",
        ),
        (
            FLAT_HEADER,
            "5x,50,30,12.5,6.4,0.8,0.01",
            700,
            "3 refused flat.csv row 2 column 2 BadNumber\n",
        ),
        (
            FLAT_HEADER,
            FLAT_VALUES,
            690,
            "3 refused flat.csv row 32 column 1 BadWavelength\n",
        ),
        (
            "nm,p100,p50,p50,p12,p6,p08,p001",
            FLAT_VALUES,
            700,
            "3 refused flat.csv row 1 column 4 DoubleName\n",
        ),
    ] {
        let file = flat_like(alloc, header, first, last)?;
        let files = [("flat.csv", file.as_bytes())];
        assert_answers(&rt, alloc, &files, &[("ks flat.csv p50", want)])?;
    }
    Ok(())
}

#[test]
fn faults_of_weights(rt: HostRuntime) -> Result<(), Fail> {
    let alloc = rt.alloc();
    let flat = flat(alloc)?;
    for (end, want) in [
        (
            "white,15,15,15\n",
            "3 refused w.csv row 33 column 2 Unbalanced\n",
        ),
        ("", "3 refused w.csv row 33 column 1 NoWhite\n"),
    ] {
        let light = table(alloc, LIGHT_HEADER, [ONES, ONES, ONES], ONES, 700, end)?;
        let files = [("flat.csv", flat.as_bytes()), ("w.csv", light.as_bytes())];
        assert_answers(&rt, alloc, &files, &[("xyz flat.csv p12 w.csv", want)])?;
    }
    Ok(())
}

#[test]
fn long_files(rt: HostRuntime) -> Result<(), Fail> {
    let alloc = rt.alloc();
    let flat = flat(alloc)?;
    let long = vec![in alloc; b'x'; 1_000_001]?;
    let files = [("flat.csv", long.as_slice())];
    let rows = [("ks flat.csv p50", "3 refused flat.csv TooLong\n")];
    assert_answers(&rt, alloc, &files, &rows)?;
    let files = [("flat.csv", flat.as_bytes()), ("w.csv", long.as_slice())];
    let rows = [("xyz flat.csv p50 w.csv", "3 refused w.csv TooLong\n")];
    assert_answers(&rt, alloc, &files, &rows)
}
