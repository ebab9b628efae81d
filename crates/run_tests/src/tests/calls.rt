use dye_run::run;
use shelf_io::{MemShelf, MemSink};
use std::alloc::Global;
use std::process::Abort;
use std::test::Fail;

/// Calls `run`, and returns the status and the text that the sink took.
pub(crate) fn call(
    rt: &impl Abort,
    alloc: Global,
    words: &[&str],
    shelf: &mut MemShelf,
    out: &mut MemSink,
) -> Result<String, Fail> {
    let mut owned = Vec::new(alloc);
    for word in words {
        owned.push(String::from_str(alloc, word)?)?;
    }
    let status = run(alloc, owned.as_slice(), shelf, out);
    let text = String::from_utf8(Vec::from_slice(alloc, out.taken())?).expect(rt, "text");
    Ok(format!(in alloc; "{status} {text}")?)
}

/// The same over these files. No call is made to fail; reads of other names do, and no other file
/// can be made.
pub(crate) fn answer(
    rt: &impl Abort,
    alloc: Global,
    words: &[&str],
    files: &[(&str, &[u8])],
) -> Result<String, Fail> {
    let mut shelf = MemShelf::holding(alloc, 0, 0, files)?;
    let mut out = MemSink::empty(alloc, 100_000)?;
    call(rt, alloc, words, &mut shelf, &mut out)
}

/// Asserts that each line of words has this answer over these files.
pub(crate) fn assert_answers(
    rt: &impl Abort,
    alloc: Global,
    files: &[(&str, &[u8])],
    rows: &[(&str, &str)],
) -> Result<(), Fail> {
    for (line, want) in rows {
        let words: Vec<&str> = line.split(' ').collect(alloc)?;
        let got = answer(rt, alloc, words.as_slice(), files)?;
        assert_eq!(rt; got.as_str(), *want, "{line}");
    }
    Ok(())
}
