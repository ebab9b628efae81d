//! Calls of the shelf and of the sink that fail.

use super::calls::call;
use super::files::{flat, ks_lines};
use shelf_io::{MemShelf, MemSink};
use std::alloc::Global;
use std::process::Abort;
use std::test::Fail;

/// The status and text of `ks flat.csv p50` where the calls of the shelf and of the sink with these
/// numbers fail, and a read returns at most `most` bytes, unless that is 0. The file must not
/// change.
fn ks_under_faults(
    rt: &impl Abort,
    alloc: Global,
    shelf_call: u64,
    sink_call: u64,
    most: usize,
) -> Result<String, Fail> {
    let file = flat(alloc)?;
    let mut shelf = MemShelf::empty(alloc, 0, 0)?;
    shelf.put_file("flat.csv", file.as_bytes())?;
    shelf.fail_at(shelf_call)?;
    if most > 0 {
        shelf.read_most(most);
    }
    let mut out = MemSink::empty(alloc, 100_000)?;
    out.fail_at(sink_call)?;
    let words = ["ks", "flat.csv", "p50"];
    let answer = call(rt, alloc, &words, &mut shelf, &mut out)?;
    assert!(rt; shelf.file("flat.csv") == Some(file.as_bytes()));
    Ok(answer)
}

#[test]
fn answers_after_a_fault(rt: HostRuntime) -> Result<(), Fail> {
    let alloc = rt.alloc();
    let all = ks_lines(alloc, "0.250000000000..0.250000000000")?;
    assert_eq!(rt; all.len(), 1085);
    let half = all.as_str().get(..542).ok_or("no half")?;
    let unreadable = "unreadable flat.csv\n";
    for (shelf_call, sink_call, most, status, text) in [
        // a failed read; the last row has the number of a read that is never made
        (1, 9, 0, 2, unreadable),
        (2, 9, 0, 2, unreadable),
        (3, 9, 0, 0, all.as_str()),
        // a failed put takes half of its piece
        (9, 1, 0, 4, half),
        (9, 2, 0, 0, all.as_str()),
        // both
        (1, 1, 0, 4, "unrea"),
        (1, 2, 0, 4, "unreadable flat"),
        (1, 3, 0, 4, "unreadable flat.csv"),
        (1, 4, 0, 2, unreadable),
        // reads that return one byte at a time
        (0, 9, 1, 0, all.as_str()),
        (100, 9, 1, 2, unreadable),
    ] {
        let got = ks_under_faults(&rt, alloc, shelf_call, sink_call, most)?;
        let want = format!(in alloc; "{status} {text}")?;
        assert_eq!(rt; got.as_str(), want.as_str(), "{shelf_call} {sink_call}");
    }
    Ok(())
}
