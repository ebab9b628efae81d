//! Times the operations on intervals at both scales: `speed ROUNDS` prints, for each operation, the
//! nanoseconds that a thousand calls take at the base scale and at the quick one. For the job in
//! the file JOB, `speed ROUNDS JOB` prints the nanoseconds that a box takes to be judged by itself,
//! and in a search.
#![tactic(auto)]

mod boxes;
mod loops;
mod pairs;

use fix_bounds::{Base, Quick, Scale};
use std::rt::{Clock, Env};
use std::time::Instant;
use std::{env, io};

/// The number of rounds, if the first word is a number, and the second word, if there is one.
fn words_of<R: Env + AllocGlobal>(rt: &R) -> io::Result<(Option<u32>, Option<String>)> {
    let mut words = env::args(rt)?.skip(1);
    match words.next() {
        Some(word) => Ok((word.as_str().parse::<u32>().ok(), words.next())),
        None => Ok((None, None)),
    }
}

/// Times all operations at one scale.
fn times<S: Scale, R: Clock + Print + AllocGlobal>(
    rt: &R,
    scale: &str,
    rounds: u32,
) -> io::Result<()> {
    let pairs = pairs::drawn::<S>(rt.alloc())?;
    for operation in loops::OPERATIONS {
        let start = Instant::now(rt)?;
        let sum = loops::run(operation, pairs.as_slice(), rounds);
        let took = start.elapsed(rt)?.as_nanos() / u128::from(rounds).max(1);
        println!(rt; "{scale} {operation:?} {took} (sum {sum})")?;
    }
    Ok(())
}

fn main(rt: HostRuntime) -> io::Result<()> {
    match words_of(&rt)? {
        (Some(rounds), Some(job)) => boxes::run(&rt, job.as_str(), rounds),
        (Some(rounds), None) => {
            times::<Base, HostRuntime>(&rt, "base", rounds)?;
            times::<Quick, HostRuntime>(&rt, "quick", rounds)
        }
        _ => println!(rt; "usage: speed ROUNDS [JOB], for the nanoseconds of a thousand calls"),
    }
}
