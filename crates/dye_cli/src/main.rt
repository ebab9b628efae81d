//! The program `dye`: hands the words of its command line, the real files and standard output to
//! the one call that does all the work.
#![tactic(auto)]

use dye_run::run;
use shelf_io::{RealShelf, RealSink};
use std::alloc::Global;
use std::fs::File;
use std::process::ExitCode;
use std::rt::{Env, Files};
use std::{env, fs, io};

/// The status where memory runs out while the words are read.
const OUT_OF_MEMORY: u8 = 10;

/// The status where the standard streams cannot be guarded.
const NOT_WRITTEN: u8 = 4;

// Three descriptors that only read from nothing. Opened before any other file, and kept open, they
// take the place of closed standard streams: no file of a command gets the number of a stream, and
// a report that is written to a closed standard output fails.
fn guard_streams<R: Files<File = File>>(rt: &R) -> io::Result<[File; 3]> {
    Ok([
        fs::open(rt, "/dev/null")?,
        fs::open(rt, "/dev/null")?,
        fs::open(rt, "/dev/null")?,
    ])
}

// The words after the program's name. Where one of them is not UTF-8 the result is an error, and
// `main` goes on as if there were no words: the usage text is printed.
fn words_of<R: Env + AllocGlobal>(rt: &R) -> io::Result<Vec<String>> {
    let mut words = Vec::new(rt.alloc());
    for word in env::args(rt)?.skip(1) {
        words.push(word)?;
    }
    Ok(words)
}

fn main(rt: HostRuntime) -> ExitCode {
    let Ok(_guards) = guard_streams(&rt) else {
        return ExitCode::from(NOT_WRITTEN);
    };
    let words = match words_of(&rt) {
        Ok(words) => words,
        Err(error) if error.kind() == io::ErrorKind::OutOfMemory => {
            return ExitCode::from(OUT_OF_MEMORY);
        }
        Err(_) => Vec::new(rt.alloc()),
    };
    let alloc = rt.alloc();
    let mut out = RealSink::new(rt.stdout());
    let mut shelf = RealShelf::new(rt);
    ExitCode::from(run(alloc, words.as_slice(), &mut shelf, &mut out))
}
