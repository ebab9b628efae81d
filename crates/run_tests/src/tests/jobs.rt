//! `show`, and jobs that are refused.

use super::calls::{answer, assert_answers, call};
use super::files::{LIGHT_HEADER, ONES, even_light, flat, halves, table};
use shelf_io::{MemShelf, MemSink};
use std::alloc::{AllocError, Global};
use std::process::Abort;
use std::test::Fail;

pub(crate) const TOP: &str = "curves = \"flat.csv\"\nstandard = \"p30\"\n";

pub(crate) const LIGHT: &str = "[[light]]\nweights = \"w.csv\"\ntolerance = 10\n";

/// The lines of a job for a dye with one dyeing.
fn dye(alloc: Global, name: &str, price: &str, curve: &str) -> Result<String, AllocError> {
    format!(in alloc;
        "[[dye]]\nname = \"{name}\"\nprice = {price}\nstep = 10\nmost = 1\n\
         [[dye.dyeing]]\nunits = 10\ncurve = \"{curve}\"\n"
    )
}

/// A job on p50 with two dyes: U with this price and curve, and V with this price and curve p30.
pub(crate) fn job(
    alloc: Global,
    top: &str,
    lights: &str,
    u: (&str, &str),
    v_price: &str,
    end: &str,
) -> Result<String, AllocError> {
    let first = dye(alloc, "U", u.0, u.1)?;
    let second = dye(alloc, "V", v_price, "p30")?;
    format!(in alloc; "version = 1\nsubstrate = \"p50\"\n{top}{lights}{first}{second}{end}")
}

/// The files of a job with two lights.
#[derive(Drop)]
pub(crate) struct TwoLights {
    pub curves: String,
    pub first: String,
    pub second: String,
    pub job: String,
}

/// A job with two lights: U dyes only the wavelengths up to 540 nm, and the second light has
/// weights only from 560 nm on.
pub(crate) fn two_lights(alloc: Global) -> Result<TwoLights, AllocError> {
    let curves = halves(alloc, "nm,p50,p30,half", 540, "50,30,30", "50,30,50", "")?;
    let end = "white,15,15,15\n";
    let first = halves(alloc, LIGHT_HEADER, 540, ONES, "0,0,0", end)?;
    let second = halves(alloc, LIGHT_HEADER, 550, "0,0,0", ONES, end)?;
    let top = "curves = \"two.csv\"\nstandard = \"p30\"\n";
    let lights = "[[light]]\nweights = \"w1.csv\"\ntolerance = 10\n\
        [[light]]\nweights = \"w2.csv\"\ntolerance = 10\n";
    let job = job(alloc, top, lights, ("1", "half"), "3", "")?;
    Ok(TwoLights {
        curves,
        first,
        second,
        job,
    })
}

/// The status and the last line of an answer.
fn end_of<'a>(text: &'a str) -> (&'a str, &'a str) {
    let status = text.split_once(' ').unwrap_or((text, "")).0;
    let body = text.strip_suffix('\n').unwrap_or(text);
    (status, body.rsplit_once('\n').unwrap_or(("", body)).1)
}

const MATCH: &str = "0 dye U steps 0 percent 0.000 grams 0.00\n\
    dye V steps 1 percent 0.010 grams 0.10\n\
    cost 30\n\
    light 1 DE 0.000000000000..0.000003316625 pass\n\
    pass\n";

// Two equal dyes: one step of the second matches.
#[test]
fn shows_recipes(rt: HostRuntime) -> Result<(), Fail> {
    let alloc = rt.alloc();
    let flat = flat(alloc)?;
    let light = even_light(alloc)?;
    let plain = job(alloc, TOP, LIGHT, ("3", "p30"), "3", "")?;
    let batch = "[batch]\ncurve = \"p50\"\nsteps = [1, 0]\n";
    let correction = job(alloc, TOP, LIGHT, ("1", "p30"), "3", batch)?;
    let files = [
        ("flat.csv", flat.as_bytes()),
        ("w.csv", light.as_bytes()),
        ("b.toml", plain.as_bytes()),
        ("e.toml", correction.as_bytes()),
    ];
    let rows = [
        ("show b.toml 0,1", MATCH),
        ("show b.toml 00,0001", MATCH),
        ("show b.toml 0,2", "11 steps refused\n"),
        ("show b.toml 0,1,0", "11 steps refused\n"),
        ("show b.toml 0;1", "11 steps refused\n"),
        ("show b.toml ", "11 steps refused\n"),
        // an addition to a bath that has the most steps of dye U
        ("show e.toml 0,1", MATCH),
        ("show e.toml 1,0", "11 steps refused limit 1\n"),
    ];
    assert_answers(&rt, alloc, &files, &rows)?;
    let none = answer(&rt, alloc, &["show", "b.toml", "0,0"], &files)?;
    assert_eq!(rt; end_of(none.as_str()), ("8", "fail"));
    // another program computed the differences in floating point: 5.957657 and 3.154990
    assert!(rt; none.as_str().contains("light 1 DE 5.95765"));
    let both = answer(&rt, alloc, &["show", "b.toml", "1,1"], &files)?;
    assert!(rt; both.as_str().contains("light 1 DE 3.1549"));
    Ok(())
}

// Limits 2 to 5 are named by their numbers; where several are broken, the lowest is named.
#[test]
fn names_limits(rt: HostRuntime) -> Result<(), Fail> {
    let alloc = rt.alloc();
    let flat = flat(alloc)?;
    let light = even_light(alloc)?;
    let pair = "[[pair]]\na = \"U\"\nb = \"V\"\n";
    for (limit, end, want) in [
        ("max_dyes = 1\n", "", "11 steps refused limit 2\n"),
        (
            "max_dyes = 1\nmax_cost = 1\n",
            pair,
            "11 steps refused limit 2\n",
        ),
        ("max_total = 19\n", "", "11 steps refused limit 3\n"),
        ("", pair, "11 steps refused limit 4\n"),
        ("max_cost = 59\n", "", "11 steps refused limit 5\n"),
    ] {
        let top = format!(in alloc; "{TOP}{limit}")?;
        let job = job(alloc, top.as_str(), LIGHT, ("3", "p30"), "3", end)?;
        let files = [
            ("flat.csv", flat.as_bytes()),
            ("w.csv", light.as_bytes()),
            ("b.toml", job.as_bytes()),
        ];
        assert_answers(&rt, alloc, &files, &[("show b.toml 1,1", want)])?;
    }
    Ok(())
}

/// What is shown of one step of V, which passes under both lights.
pub(crate) const BOTH_PASS: &str = "dye U steps 0 percent 0.000 grams 0.00\n\
    dye V steps 1 percent 0.010 grams 0.10\n\
    cost 30\n\
    light 1 DE 0.000000000000..0.000003316625 pass\n\
    light 2 DE 0.000000000000..0.000003316625 pass\n";

// One step of U leaves the wavelengths of the second light undyed. Another program calculated the
// difference there, in whole numbers by the formulas that docs/rules.md states.
#[test]
fn judges_under_two_lights(rt: HostRuntime) -> Result<(), Fail> {
    let alloc = rt.alloc();
    let two = two_lights(alloc)?;
    let files = [
        ("two.csv", two.curves.as_bytes()),
        ("w1.csv", two.first.as_bytes()),
        ("w2.csv", two.second.as_bytes()),
        ("c.toml", two.job.as_bytes()),
    ];
    let fails = "8 dye U steps 1 percent 0.010 grams 0.10\n\
        dye V steps 0 percent 0.000 grams 0.00\n\
        cost 10\n\
        light 1 DE 0.000000000000..0.000003316625 pass\n\
        light 2 DE 5.957657146425..5.957657146534 fail\n\
        fail\n";
    let passes = format!(in alloc; "0 {BOTH_PASS}pass\n")?;
    let rows = [
        ("show c.toml 1,0", fails),
        ("show c.toml 0,1", passes.as_str()),
    ];
    assert_answers(&rt, alloc, &files, &rows)
}

#[test]
fn faults_of_jobs(rt: HostRuntime) -> Result<(), Fail> {
    let alloc = rt.alloc();
    let flat = flat(alloc)?;
    let light = even_light(alloc)?;
    let unnamed = "curves = \"flat.csv\"\nstandard = \"none\"\n";
    for (top, v_price, want) in [
        (unnamed, "3", "3 refused b.toml job 0 0 UnknownColumn\n"),
        (TOP, "-1", "3 refused b.toml dye 2 0 OutOfRange\n"),
    ] {
        let job = job(alloc, top, LIGHT, ("3", "p30"), v_price, "")?;
        let files = [
            ("flat.csv", flat.as_bytes()),
            ("w.csv", light.as_bytes()),
            ("b.toml", job.as_bytes()),
        ];
        assert_answers(&rt, alloc, &files, &[("show b.toml 0,0", want)])?;
    }
    Ok(())
}

/// Puts a file on a shelf, if there is one.
fn put(shelf: &mut MemShelf, name: &str, bytes: Option<&[u8]>) -> Result<(), Fail> {
    if let Some(bytes) = bytes {
        shelf.put_file(name, bytes)?;
    }
    Ok(())
}

/// Asserts the status and text of `show b.toml 9` over a job, curves and weights.
fn assert_show(
    rt: &impl Abort,
    job: Option<&[u8]>,
    curves: Option<&[u8]>,
    weights: Option<&[u8]>,
    alloc: Global,
    want: &str,
) -> Result<(), Fail> {
    let mut shelf = MemShelf::empty(alloc, 0, 0)?;
    put(&mut shelf, "b.toml", job)?;
    put(&mut shelf, "flat.csv", curves)?;
    put(&mut shelf, "w.csv", weights)?;
    let mut out = MemSink::empty(alloc, 100)?;
    let got = call(rt, alloc, &["show", "b.toml", "9"], &mut shelf, &mut out)?;
    assert_eq!(rt; got.as_str(), want);
    Ok(())
}

// The job is judged by itself before any other file is read; all other files are read before any
// of them is judged; and the steps are judged last.
#[test]
fn order_of_faults(rt: HostRuntime) -> Result<(), Fail> {
    let alloc = rt.alloc();
    let flat = flat(alloc)?;
    let light = even_light(alloc)?;
    let end = "white,15,15,15\n";
    let unbalanced = table(alloc, LIGHT_HEADER, [ONES, ONES, ONES], ONES, 700, end)?;
    let good = job(alloc, TOP, LIGHT, ("3", "p30"), "3", "")?;
    let bad = job(alloc, TOP, LIGHT, ("3", "p30"), "-1", "")?;
    let long = vec![in alloc; b'#'; 1_000_001]?;
    let (good, bad, long) = (
        Some(good.as_bytes()),
        Some(bad.as_bytes()),
        Some(long.as_slice()),
    );
    let (flat, light) = (Some(flat.as_bytes()), Some(light.as_bytes()));
    let other = Some(unbalanced.as_bytes());
    assert_show(&rt, None, flat, light, alloc, "2 unreadable b.toml\n")?;
    assert_show(&rt, long, None, light, alloc, "3 refused b.toml TooLong\n")?;
    assert_show(
        &rt,
        bad,
        None,
        light,
        alloc,
        "3 refused b.toml dye 2 0 OutOfRange\n",
    )?;
    assert_show(&rt, good, None, light, alloc, "2 unreadable flat.csv\n")?;
    assert_show(&rt, good, long, None, alloc, "2 unreadable w.csv\n")?;
    assert_show(
        &rt,
        good,
        long,
        light,
        alloc,
        "3 refused flat.csv TooLong\n",
    )?;
    let want = "3 refused w.csv row 33 column 2 Unbalanced\n";
    assert_show(&rt, good, flat, other, alloc, want)?;
    assert_show(&rt, good, flat, light, alloc, "11 steps refused\n")
}
