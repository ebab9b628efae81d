//! Certificates that were not made by a search.

use super::calls::assert_answers;
use super::files::{even_light, flat};
use super::jobs::{LIGHT, TOP, job};
use super::searches::solo;
use std::alloc::Global;
use std::process::Abort;
use std::test::Fail;

/// Asserts the result of `check j.toml j.cert` for a job and the lines of a certificate.
fn assert_check(
    rt: &impl Abort,
    alloc: Global,
    job: &str,
    lines: &str,
    want: &str,
) -> Result<(), Fail> {
    let flat = flat(alloc)?;
    let light = even_light(alloc)?;
    let job = String::from_str(alloc, job)?;
    let cert = format!(in alloc; "dye-cert 1\n{lines}")?;
    let want = match want {
        "accepted floor" => format!(in alloc; "0 accepted floor\n")?,
        _ => format!(in alloc; "7 certificate refused {want}\n")?,
    };
    let files = [
        ("flat.csv", flat.as_bytes()),
        ("w.csv", light.as_bytes()),
        ("j.toml", job.as_bytes()),
        ("j.cert", cert.as_bytes()),
    ];
    assert_answers(rt, alloc, &files, &[("check j.toml j.cert", want.as_str())])
}

// A job with two equal dyes at one price, and a job with an undecided recipe.
#[test]
fn refuses_certificates(rt: HostRuntime) -> Result<(), Fail> {
    let alloc = rt.alloc();
    let b = job(alloc, TOP, LIGHT, ("3", "p30"), "3", "")?;
    for (lines, want) in [
        (
            "match 0 1\nundecided 0\ns 1 0\ns 1 0\nd\nd\nd\n",
            "line 5 BadSplit",
        ),
        ("match 0 2\nundecided 0\nd\n", "line 2 WrongList"),
        ("match 01 1\nundecided 0\nd\n", "line 2 BadClaim"),
        (
            "match 0 0\nundecided 0\ns 1 0\ns 2 0\nf 1\nd\nd\n",
            "line 2 WrongList",
        ),
        ("match 0 1\nundecided 0\nd\n", "line 4 NotDear"),
        ("none\nundecided 0\nd\n", "line 4 NotDear"),
        ("none\nundecided 0\nu\n", "line 4 NotPoint"),
        ("floor 0\nundecided 0\nd\n", "accepted floor"),
        ("none\nundecided 1000000\n", "line 4 Missing"),
        ("none\nundecided 0\nx 6\n", "line 4 BadLine"),
    ] {
        assert_check(&rt, alloc, b.as_str(), lines, want)?;
    }
    let once = "name = \"R\"\nprice = 3\nstep = 10\nmost = 1\n\
        [[dye.dyeing]]\nunits = 1000\ncurve = \"p30\"\n";
    let f = solo(alloc, "standard = \"p50\"\n", 0, once)?;
    for list in [
        "undecided 0\n",
        "undecided 2\n0\n0\n",
        "undecided 2\n0\n1\n",
    ] {
        let lines = format!(in alloc; "none\n{list}s 1 0\nu\nf 1\n")?;
        assert_check(&rt, alloc, f.as_str(), lines.as_str(), "line 5 WrongList")?;
    }
    Ok(())
}

// A tree of 4,000 splits, each below the one before it.
#[test]
fn accepts_a_deep_tree(rt: HostRuntime) -> Result<(), Fail> {
    let alloc = rt.alloc();
    let wide = "name = \"R\"\nprice = 3\nstep = 1\nmost = 4000\n\
        [[dye.dyeing]]\nunits = 1000\ncurve = \"p30\"\n";
    let a = solo(alloc, "standard = \"p50\"\n", 1000, wide)?;
    let mut lines = String::from_str(alloc, "floor 0\nundecided 0\n")?;
    for below in 0..4000u32 {
        let mid = 3999 - below;
        write!(lines, "s 1 {mid}\n")?;
    }
    for _ in 0..4001u32 {
        lines.push_str("d\n")?;
    }
    assert_check(&rt, alloc, a.as_str(), lines.as_str(), "accepted floor")
}
