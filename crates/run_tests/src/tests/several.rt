//! Searches for several recipes of a job.

use super::files::{even_light, flat};
use super::jobs::{LIGHT, TOP, job};
use box_core::{CertLine, Evals};
use box_search::{End, search_several};
use job_file::{BatchRule, Resolved, read_job, resolve};
use recipe_judge::RecipeLand;
use spectral_tables::{CurveBook, TABLE_LIMIT, WaveGrid, Weights, read_curves, read_weights};
use std::alloc::{AllocError, Global};
use std::process::Abort;
use std::test::Fail;

/// The curves in a text, if it is read.
fn curves_of(alloc: Global, text: &str) -> Option<CurveBook> {
    let bytes = text.as_bytes();
    if TABLE_LIMIT < bytes.len() as u64 {
        return None;
    }
    read_curves(alloc, bytes, WaveGrid::Ten).ok()
}

/// The weights in a text, if it is read.
fn weights_of(alloc: Global, text: &str) -> Option<Weights> {
    let bytes = text.as_bytes();
    if TABLE_LIMIT < bytes.len() as u64 {
        return None;
    }
    read_weights(alloc, bytes, WaveGrid::Ten).ok()
}

/// The job in a text, resolved over these curves and weights of its one light.
fn resolved_of(alloc: Global, text: &str, book: &CurveBook, weights: Weights) -> Option<Resolved> {
    let job = read_job(alloc, text.as_bytes(), BatchRule::Either).ok()?;
    let waves = book.find(job.substrate.as_str())?.waves();
    if weights.waves() != waves || job.light.len() != 1 {
        return None;
    }
    let lights = vec![in alloc; weights].ok()?;
    resolve(alloc, job, book, lights).ok()
}

/// The job of two equal dyes.
fn two_dyes(alloc: Global) -> Result<Option<Resolved>, AllocError> {
    let words = job(alloc, TOP, LIGHT, ("3", "p30"), "3", "")?;
    let curves = flat(alloc)?;
    let light = even_light(alloc)?;
    let Some(book) = curves_of(alloc, curves.as_str()) else {
        return Ok(None);
    };
    let Some(weights) = weights_of(alloc, light.as_str()) else {
        return Ok(None);
    };
    Ok(resolved_of(alloc, words.as_str(), &book, weights))
}

/// Asserts how searches for two and for three recipes end: both recipes that pass are found, and
/// all boxes are judged in the search for three.
fn assert_ends(rt: &impl Abort, alloc: Global, land: &RecipeLand) -> Result<(), Fail> {
    let mut meter = Evals::default();
    let two = search_several(alloc, land, 2, 100, &mut meter)?;
    assert_eq!(rt;
        (two.end, two.boxes, two.matched.len()),
        (End::Enough, 6, 2)
    );
    assert_eq!(rt;
        two.lines.as_slice(),
        [
            CertLine::Split { dye: 1, mid: 0 },
            CertLine::Split { dye: 2, mid: 0 },
            CertLine::Fail(1),
            CertLine::Pass,
            CertLine::Split { dye: 2, mid: 0 },
            CertLine::Pass,
            CertLine::Dear,
        ]
        .as_slice()
    );
    let three = search_several(alloc, land, 3, 100, &mut meter)?;
    assert_eq!(rt;
        (three.end, three.boxes, three.matched.len()),
        (End::Exhausted, 7, 2)
    );
    Ok(())
}

// One step of either dye matches, at the same cost.
#[test]
fn finds_several_recipes(rt: HostRuntime) -> Result<(), Fail> {
    let resolved = two_dyes(rt.alloc())?;
    assert!(rt; resolved.is_some());
    if let Some(resolved) = resolved {
        let land = RecipeLand::of_job(rt.alloc(), resolved)?;
        assert_ends(&rt, rt.alloc(), &land)?;
    }
    Ok(())
}
