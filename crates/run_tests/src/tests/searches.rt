//! `predict`, `correct`, `check` and `demo`.

use super::calls::{answer, assert_answers, call};
use super::files::{even_light, flat};
use super::jobs::{BOTH_PASS, LIGHT, TOP, job, two_lights};
use shelf_io::{MemShelf, MemSink};
use std::alloc::{AllocError, Global};
use std::process::Abort;
use std::test::Fail;

/// A job on p50 with one dye: the rest of its head, the tolerance of its light, and its dye.
pub(crate) fn solo(
    alloc: Global,
    top: &str,
    tolerance: u32,
    dye: &str,
) -> Result<String, AllocError> {
    format!(in alloc;
        "version = 1\ncurves = \"flat.csv\"\nsubstrate = \"p50\"\n{top}\
         [[light]]\nweights = \"w.csv\"\ntolerance = {tolerance}\n[[dye]]\n{dye}"
    )
}

/// Asserts the answer of a search and the certificate that it writes, and that `check` accepts it.
fn assert_finds(
    rt: &impl Abort,
    alloc: Global,
    files: &[(&str, &[u8])],
    words: &[&str; 3],
    want: &str,
    cert: &str,
) -> Result<(), Fail> {
    let mut shelf = MemShelf::holding(alloc, 10_000, 1, files)?;
    let mut out = MemSink::empty(alloc, 10_000)?;
    let got = call(rt, alloc, words, &mut shelf, &mut out)?;
    assert_eq!(rt; got.as_str(), want);
    let name = words[2];
    assert!(rt; shelf.file(name) == Some(cert.as_bytes()), "{name}");
    let claim = match got.as_bytes() {
        [b'0', ..] => "0 accepted match\n",
        [b'5', ..] => "0 accepted none\n",
        _ => "0 accepted floor\n",
    };
    let mut out = MemSink::empty(alloc, 100)?;
    let checked = call(rt, alloc, &["check", words[1], name], &mut shelf, &mut out)?;
    assert_eq!(rt; checked.as_str(), claim);
    Ok(())
}

pub(crate) const R: &str = "name = \"R\"\nprice = 3\nstep = 10\nmost = 4\n\
    [[dye.dyeing]]\nunits = 1000\ncurve = \"p30\"\n";

pub(crate) const UNDYED: &str = "0 match\nboxes 2\ndye R steps 0 percent 0.000 grams 0.00\ncost 0\n\
    light 1 DE 0.000000000000..0.000003316625 pass\nundecided 0\n";

pub(crate) const UNDYED_CERT: &str = "dye-cert 1\nmatch 0\nundecided 0\ns 1 0\np\nd\n";

const MATCH: &str = "dye U steps 0 percent 0.000 grams 0.00\n\
    dye V steps 1 percent 0.010 grams 0.10\ncost 30\n\
    light 1 DE 0.000000000000..0.000003316625 pass\nundecided 0\n";

const MATCH_CERT: &str = "dye-cert 1\nmatch 0 1\nundecided 0\ns 1 0\ns 2 0\nf 1\np\nd\n";

// Jobs with one dye: one that the undyed cloth matches, one with no match, and one with an
// undecided recipe.
#[test]
fn searches_one_dye(rt: HostRuntime) -> Result<(), Fail> {
    let alloc = rt.alloc();
    let flat = flat(alloc)?;
    let light = even_light(alloc)?;
    let a = solo(alloc, "standard = \"p50\"\n", 1000, R)?;
    let u = "name = \"U\"\nprice = 3\nstep = 10\nmost = 1\n\
        [[dye.dyeing]]\nunits = 10\ncurve = \"p30\"\n";
    let d = solo(alloc, "standard = \"p30\"\nmax_total = 5\n", 10, u)?;
    let once = "name = \"R\"\nprice = 3\nstep = 10\nmost = 1\n\
        [[dye.dyeing]]\nunits = 1000\ncurve = \"p30\"\n";
    let f = solo(alloc, "standard = \"p50\"\n", 0, once)?;
    let files = [
        ("flat.csv", flat.as_bytes()),
        ("w.csv", light.as_bytes()),
        ("a.toml", a.as_bytes()),
        ("d.toml", d.as_bytes()),
        ("f.toml", f.as_bytes()),
    ];
    assert_finds(
        &rt,
        alloc,
        &files,
        &["predict", "a.toml", "a.cert"],
        UNDYED,
        UNDYED_CERT,
    )?;
    assert_finds(
        &rt,
        alloc,
        &files,
        &["predict", "d.toml", "d.cert"],
        "5 no match\nboxes 3\nundecided 0\n",
        "dye-cert 1\nnone\nundecided 0\ns 1 0\nf 1\nx 3\n",
    )?;
    assert_finds(
        &rt,
        alloc,
        &files,
        &["predict", "f.toml", "f.cert"],
        "5 no match\nboxes 3\nundecided 1\nrecipe 0 cost 0\n\
         light 1 DE 0.000000000000..0.000003316625 undecided\n",
        "dye-cert 1\nnone\nundecided 1\n0\ns 1 0\nu\nf 1\n",
    )
}

// Two equal dyes at one price, with several budgets; and a correction of a batch.
#[test]
fn searches_two_dyes(rt: HostRuntime) -> Result<(), Fail> {
    let alloc = rt.alloc();
    let flat = flat(alloc)?;
    let light = even_light(alloc)?;
    let plain = ("3", "p30");
    let ended = "6 budget ended\nboxes 3\nfloor 30\nundecided 0\n";
    let ended_cert = "dye-cert 1\nfloor 30\nundecided 0\ns 1 0\ns 2 0\nf 1\nd\nd\n";
    let matched = format!(in alloc; "0 match\nboxes 4\n{MATCH}")?;
    let corrected = format!(in alloc; "0 match\nboxes 5\n{MATCH}")?;
    let corrected_cert = "dye-cert 1\nmatch 0 1\nundecided 0\ns 1 0\ns 2 0\nf 1\np\nx 1\n";
    for (budget, want, cert) in [
        ("", matched.as_str(), MATCH_CERT),
        ("budget = 4\n", matched.as_str(), MATCH_CERT),
        ("budget = 3\n", ended, ended_cert),
        (
            "budget = 1\n",
            "6 budget ended\nboxes 1\nfloor 0\nundecided 0\n",
            "dye-cert 1\nfloor 0\nundecided 0\ns 1 0\nd\nd\n",
        ),
    ] {
        let top = format!(in alloc; "{TOP}{budget}")?;
        let b = job(alloc, top.as_str(), LIGHT, plain, "3", "")?;
        let files = [
            ("flat.csv", flat.as_bytes()),
            ("w.csv", light.as_bytes()),
            ("b.toml", b.as_bytes()),
        ];
        assert_finds(
            &rt,
            alloc,
            &files,
            &["predict", "b.toml", "b.cert"],
            want,
            cert,
        )?;
    }
    let b = job(alloc, TOP, LIGHT, plain, "3", "")?;
    let batch = "[batch]\ncurve = \"p50\"\nsteps = [1, 0]\n";
    let e = job(alloc, TOP, LIGHT, ("1", "p30"), "3", batch)?;
    let files = [
        ("flat.csv", flat.as_bytes()),
        ("w.csv", light.as_bytes()),
        ("b.toml", b.as_bytes()),
        ("e.toml", e.as_bytes()),
    ];
    let words = ["correct", "e.toml", "e.cert"];
    assert_finds(
        &rt,
        alloc,
        &files,
        &words,
        corrected.as_str(),
        corrected_cert,
    )?;
    let rows = [
        (
            "predict e.toml e.cert",
            "3 refused e.toml job 0 0 UnknownKey\n",
        ),
        (
            "correct b.toml b.cert",
            "3 refused b.toml job 0 0 MissingKey\n",
        ),
    ];
    assert_answers(&rt, alloc, &files, &rows)
}

// The cheaper dye passes under the first light and fails under the second.
#[test]
fn searches_under_two_lights(rt: HostRuntime) -> Result<(), Fail> {
    let alloc = rt.alloc();
    let two = two_lights(alloc)?;
    let files = [
        ("two.csv", two.curves.as_bytes()),
        ("w1.csv", two.first.as_bytes()),
        ("w2.csv", two.second.as_bytes()),
        ("c.toml", two.job.as_bytes()),
    ];
    let want = format!(in alloc; "0 match\nboxes 6\n{BOTH_PASS}undecided 0\n")?;
    assert_finds(
        &rt,
        alloc,
        &files,
        &["predict", "c.toml", "c.cert"],
        want.as_str(),
        "dye-cert 1\nmatch 0 1\nundecided 0\ns 1 0\ns 2 0\nf 1\np\ns 2 0\nf 2\nd\n",
    )
}

// The batch was measured as the standard, and so it needs no addition; a batch as the undyed cloth
// needs a step of the second dye.
#[test]
fn corrects_from_the_measured_batch(rt: HostRuntime) -> Result<(), Fail> {
    let alloc = rt.alloc();
    let flat = flat(alloc)?;
    let light = even_light(alloc)?;
    let batch = "[batch]\ncurve = \"p30\"\nsteps = [1, 0]\n";
    let g = job(alloc, TOP, LIGHT, ("1", "p30"), "3", batch)?;
    let files = [
        ("flat.csv", flat.as_bytes()),
        ("w.csv", light.as_bytes()),
        ("g.toml", g.as_bytes()),
    ];
    assert_finds(
        &rt,
        alloc,
        &files,
        &["correct", "g.toml", "g.cert"],
        "0 match\nboxes 3\ndye U steps 0 percent 0.000 grams 0.00\n\
         dye V steps 0 percent 0.000 grams 0.00\ncost 0\n\
         light 1 DE 0.000000000000..0.000003316625 pass\nundecided 0\n",
        "dye-cert 1\nmatch 0 0\nundecided 0\ns 1 0\ns 2 0\np\nd\nd\n",
    )
}

// Certificates for the job with two equal dyes: the one that a search writes, and others with
// changed lines.
#[test]
fn checks_certificates(rt: HostRuntime) -> Result<(), Fail> {
    let alloc = rt.alloc();
    let flat = flat(alloc)?;
    let light = even_light(alloc)?;
    let b = job(alloc, TOP, LIGHT, ("3", "p30"), "3", "")?;
    let head = "dye-cert 1\nmatch 0 1\nundecided 0\n";
    for (tree, want) in [
        ("s 1 0\ns 2 0\nf 1\np\nd\n", "0 accepted match\n"),
        (
            "s 1 0\ns 2 0\nf 1\np\n",
            "7 certificate refused line 8 Missing\n",
        ),
        (
            "s 1 0\ns 2 0\nf 1\nf 1\nd\n",
            "7 certificate refused line 7 NotFailing\n",
        ),
        (
            "s 1 0\ns 2 0\nd\np\nd\n",
            "7 certificate refused line 6 NotDear\n",
        ),
        (
            "s 1 0\ns 2 0\nf 1\np\nd\nd\n",
            "7 certificate refused line 9 Left\n",
        ),
        ("s 2 0\ns 1 0\nf 1\nd\ns 1 0\np\nd\n", "0 accepted match\n"),
    ] {
        let cert = format!(in alloc; "{head}{tree}")?;
        let files = [
            ("flat.csv", flat.as_bytes()),
            ("w.csv", light.as_bytes()),
            ("b.toml", b.as_bytes()),
            ("b.cert", cert.as_bytes()),
        ];
        assert_answers(&rt, alloc, &files, &[("check b.toml b.cert", want)])?;
    }
    Ok(())
}

/// Asserts the status and text of `predict a.toml a.cert` where the shelf's call with a number
/// fails, and the contents of the certificate file after it.
fn predict_under_fault(
    rt: &impl Abort,
    alloc: Global,
    files: &[(&str, &[u8])],
    number: u64,
    want: &str,
    cert: Option<&str>,
) -> Result<(), Fail> {
    let mut shelf = MemShelf::holding(alloc, 10_000, 1, files)?;
    shelf.fail_at(number)?;
    let mut out = MemSink::empty(alloc, 10_000)?;
    let words = ["predict", "a.toml", "a.cert"];
    let got = call(rt, alloc, &words, &mut shelf, &mut out)?;
    assert_eq!(rt; got.as_str(), want, "{number}");
    assert!(rt; shelf.file("a.cert") == cert.map(str::as_bytes), "{number}");
    Ok(())
}

// Each file takes two reads; then the certificate is created, its text appended, and no bytes after
// it, at which real files are stored.
#[test]
fn predicts_under_faults(rt: HostRuntime) -> Result<(), Fail> {
    let alloc = rt.alloc();
    let flat = flat(alloc)?;
    let light = even_light(alloc)?;
    let a = solo(alloc, "standard = \"p50\"\n", 1000, R)?;
    let files = [
        ("flat.csv", flat.as_bytes()),
        ("w.csv", light.as_bytes()),
        ("a.toml", a.as_bytes()),
    ];
    for (number, want, cert) in [
        (1, "2 unreadable a.toml\n", None),
        (2, "2 unreadable a.toml\n", None),
        (3, "2 unreadable flat.csv\n", None),
        (6, "2 unreadable w.csv\n", None),
        (7, "4 not written a.cert\n", None),
        // a failed append takes half of its piece
        (8, "4 not written a.cert\n", Some("dye-cert 1\nmatch 0\nu")),
        (9, "4 not written a.cert\n", Some(UNDYED_CERT)),
        (10, UNDYED, Some(UNDYED_CERT)),
    ] {
        predict_under_fault(&rt, alloc, &files, number, want, cert)?;
    }
    Ok(())
}

// A job of six dyes, generated from a number. Another program computed the cost and the numbers of
// boxes and lines.
#[test]
fn summarises_a_generated_job(rt: HostRuntime) -> Result<(), Fail> {
    let alloc = rt.alloc();
    let first = answer(&rt, alloc, &["demo", "1"], &[])?;
    let head = "0 demo 1\nmatch\nboxes 3934\ncost 69699\nundecided ";
    assert!(rt; first.as_str().starts_with(head));
    assert!(rt; first.as_str().ends_with("\nlines 5212\ncheck accepted\n"));
    let again = answer(&rt, alloc, &["demo", "000000001"], &[])?;
    assert_eq!(rt; again.as_str(), first.as_str());
    for word in ["1000000", "0000000001", ""] {
        let got = answer(&rt, alloc, &["demo", word], &[])?;
        assert!(rt; got.as_str().starts_with("1 usage"), "{word}");
    }
    Ok(())
}
