//! The outcome of `run` where nothing can fail: over a shelf that was filled with the files of a
//! command and has room for its certificate, and a sink that has room for its text.

ghost use Rattle.std.specs.Prelude.{IfOk, map, string_bytes};
ghost use Rattle.dye_run.specs.Commands.{plan_for};
ghost use Rattle.run_tests.specs.Filled.{IsReliable};

use super::files::{even_light, flat, ks_lines};
use super::searches::{R, UNDYED, UNDYED_CERT, solo};
use dye_run::run;
use shelf_io::{MemShelf, MemSink};
use std::alloc::{AllocError, Global};
use std::process::Abort;
use std::test::Fail;

/// Runs these words over a new shelf with these files, this room and these slots, and returns the
/// status and the shelf. What it ensures follows from what such a shelf promises, and from the
/// clause of `run` on promised calls.
#[tactic(auto, using(crate::proofs::Filled::is_reliable))]
fn run_filled(
    alloc: Global,
    words: &[String],
    files: &[(&str, &[u8])],
    room: usize,
    slots: usize,
    out: &mut MemSink,
) -> Result<(u8, MemShelf), AllocError>
    ensures { IfOk result (λ end. IsReliable (plan_for (map string_bytes words.now))
        room slots (map (λ f. (f.0.now, f.1.now)) files.now) out.old out.new end.0 end.1) }
{
    let mut shelf = MemShelf::holding(alloc, room, slots, files)?;
    let status = run(alloc, words, &mut shelf, out);
    Ok((status, shelf))
}

#[test]
fn runs_where_nothing_can_fail(rt: HostRuntime) -> Result<(), Fail> {
    let alloc = rt.alloc();
    let flat = flat(alloc)?;
    let light = even_light(alloc)?;
    let a = solo(alloc, "standard = \"p50\"\n", 1000, R)?;
    let files = [
        ("flat.csv", flat.as_bytes()),
        ("w.csv", light.as_bytes()),
        ("a.toml", a.as_bytes()),
    ];
    let ks = format!(in alloc;
        "0 {}",
        ks_lines(alloc, "0.250000000000..0.250000000000")?.as_str()
    )?;
    for (line, want, cert) in [
        ("ks flat.csv p50", ks.as_str(), None),
        ("predict a.toml a.cert", UNDYED, Some(UNDYED_CERT)),
    ] {
        let mut words = Vec::new(alloc);
        for word in line.split(' ') {
            words.push(String::from_str(alloc, word)?)?;
        }
        // exactly the room that is needed
        let room = cert.unwrap_or("").len();
        let slots = if cert.is_some() { 1 } else { 0 };
        let mut out = MemSink::empty(alloc, want.len().saturating_sub(2))?;
        let (status, shelf) = run_filled(alloc, words.as_slice(), &files, room, slots, &mut out)?;
        let text = String::from_utf8(Vec::from_slice(alloc, out.taken())?).expect(&rt, "text");
        let got = format!(in alloc; "{status} {}", text.as_str())?;
        assert_eq!(rt; got.as_str(), want);
        assert!(rt; shelf.file("a.cert") == cert.map(str::as_bytes));
    }
    Ok(())
}
