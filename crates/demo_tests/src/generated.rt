use demo_jobs::{Demo, make};
use job_file::{BatchRule, read_job, resolve};
use spectral_tables::{CurveBook, TABLE_LIMIT, WaveGrid, Weights, read_curves, read_weights};
use std::alloc::Global;
use std::test::Fail;

// A checksum of a text.
fn checksum(text: &[u8]) -> u32 {
    let mut sum: u32 = 0;
    for byte in text {
        sum = sum.wrapping_mul(31).wrapping_add(u32::from(*byte));
    }
    sum
}

// The expected checksums are those of texts that a separate program made by the generator's rules.
#[test]
fn tables(rt: HostRuntime) -> Result<(), Fail> {
    for (number, curves) in [(1, 3_740_626_782), (999_999, 2_899_043_892)] {
        let demo = make(rt.alloc(), number)?;
        assert_eq!(rt; checksum(demo.curves.as_slice()), curves, "at {number}");
        assert_eq!(rt; checksum(demo.first.as_slice()), 476_241_582);
        assert_eq!(rt; checksum(demo.second.as_slice()), 4_185_306_369);
    }
    Ok(())
}

fn book(alloc: Global, text: &[u8]) -> Option<CurveBook> {
    if text.len() as u64 > TABLE_LIMIT {
        return None;
    }
    read_curves(alloc, text, WaveGrid::Ten).ok()
}

fn weights(alloc: Global, text: &[u8]) -> Option<Weights> {
    if text.len() as u64 > TABLE_LIMIT {
        return None;
    }
    read_weights(alloc, text, WaveGrid::Ten).ok()
}

// The prices of the dyes of a generated job, whose files are accepted.
fn prices(alloc: Global, demo: &Demo) -> Result<Vec<u64>, Fail> {
    let book = book(alloc, demo.curves.as_slice()).ok_or("no curves")?;
    let first = weights(alloc, demo.first.as_slice()).ok_or("no first weights")?;
    let second = weights(alloc, demo.second.as_slice()).ok_or("no second weights")?;
    let curve = book.find("sub").ok_or("no curve")?;
    let job = match read_job(alloc, demo.job.as_slice(), BatchRule::Without) {
        Ok(job) => job,
        Err(_) => return Err("the job is refused".into()),
    };
    let mut prices = Vec::new(alloc);
    for dye in job.dye.as_slice() {
        prices.push(dye.price)?;
    }
    let waves = curve.waves();
    if job.light.len() != 2 || first.waves() != waves || second.waves() != waves {
        return Err("another number".into());
    }
    let mut list = Vec::new(alloc);
    list.push(first)?;
    list.push(second)?;
    match resolve(alloc, job, &book, list) {
        Ok(_) => Ok(prices),
        Err(_) => Err("the job is not resolved".into()),
    }
}

#[test]
fn accepted(rt: HostRuntime) -> Result<(), Fail> {
    let alloc = rt.alloc();
    let first = prices(alloc, &make(alloc, 1)?)?;
    assert_eq!(rt; first.as_slice(), [96, 30, 63, 94, 72, 66].as_slice());
    let last = prices(alloc, &make(alloc, 999_999)?)?;
    assert_eq!(rt; last.as_slice(), [69, 61, 93, 22, 88, 88].as_slice());
    Ok(())
}
