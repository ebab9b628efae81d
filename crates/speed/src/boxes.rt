//! Times the judging of the boxes of a job, and the search over them.

ghost use Rattle.std.specs.Prelude.{◌≡◌, ◌≤◌, All, IfSome, length, vec_len};
ghost use Rattle.box_specs.specs.Span.{IsBox, IsInside};
ghost use Rattle.recipe_judge.specs.Recipes.{recipe_land};
ghost use Rattle.spectral_tables.specs.declared.records.TheConstants.{TABLE_LIMIT};

use box_core::{BoxR, Evals, Judged, Landscape, split};
use box_search::search;
use job_file::{BatchRule, JobLight, Resolved, read_job, resolve};
use recipe_judge::RecipeLand;
use spectral_tables::{TABLE_LIMIT, WaveGrid, Weights, read_curves, read_weights};
use std::rt::{Clock, Files};
use std::time::Instant;
use std::{fs, io};

/// How many times in a row a box is split at most.
const DEPTH: u32 = 12;

/// How many boxes a search may judge.
const BUDGET: u32 = 5000;

/// How many boxes of each kind were judged.
#[derive(Clone, Copy, Debug, Default)]
struct Kinds {
    limit: u32,
    fail: u32,
    open: u32,
    single: u32,
}

impl Kinds {
    /// Counts one more judged box.
    fn count(&mut self, judged: Judged) {
        let kind = match judged {
            Judged::Limit(_) => &mut self.limit,
            Judged::Fail(_) => &mut self.fail,
            Judged::StillOpen => &mut self.open,
            Judged::Pass | Judged::Undecided => &mut self.single,
        };
        *kind = kind.saturating_add(1);
    }
}

/// A file of at most [`TABLE_LIMIT`] bytes.
fn short_file<R: Files + AllocGlobal>(rt: &R, name: &str) -> Option<Vec<u8>>
    ensures { IfSome result (λ bytes. vec_len bytes ≤ TABLE_LIMIT) }
{
    let bytes = fs::read(rt, name).ok()?;
    if bytes.len() as u64 > TABLE_LIMIT {
        return None;
    }
    Some(bytes)
}

/// The weights of lights, each for this many wavelengths.
fn weights_of<R: Files + AllocGlobal>(
    rt: &R,
    lights: &[JobLight],
    waves: usize,
) -> Option<Vec<Weights>>
    ensures count { IfSome result (λ w. length w.items ≡ length lights.now) }
    ensures waves { IfSome result (λ w. All (λ t. length t.weights ≡ waves) w.items) }
{
    let mut list = Vec::new(rt.alloc());
    for light in lights {
        let text = short_file(rt, light.weights.as_str())?;
        let weights = read_weights(rt.alloc(), text.as_slice(), WaveGrid::Ten).ok()?;
        if weights.waves() != waves {
            return None;
        }
        list.push(weights).ok()?;
    }
    Some(list)
}

/// The job in a file, resolved over its tables.
fn resolved_from<R: Files + AllocGlobal>(rt: &R, name: &str) -> Option<Resolved> {
    let alloc = rt.alloc();
    let text = short_file(rt, name)?;
    let job = read_job(alloc, text.as_slice(), BatchRule::Either).ok()?;
    let text = short_file(rt, job.curves.as_str())?;
    let book = read_curves(alloc, text.as_slice(), WaveGrid::Ten).ok()?;
    let waves = book.find(job.substrate.as_str())?.waves();
    let weights = weights_of(rt, job.light.as_slice(), waves)?;
    resolve(alloc, job, &book, weights).ok()
}

/// Judges a box, and where it is open its halves, and so on.
fn walk(land: &RecipeLand, part: &BoxR, depth: u32, kinds: &mut Kinds, meter: &mut Evals)
    requires boxed { IsBox part.now }
    requires inside { IsInside part.now (recipe_land land.now).top }
{
    let judged = land.judge(part, meter);
    kinds.count(judged);
    if 0 < depth && !part.is_single() {
        if let Judged::StillOpen = judged {
            let cut = split(part);
            walk(land, &cut.left, depth - 1, kinds, meter);
            walk(land, &cut.right, depth - 1, kinds, meter);
        }
    }
}

/// Times walks over the boxes of a job: prints the least time per box of `rounds` walks.
fn time_judging<R: Clock + Print>(rt: &R, land: &RecipeLand, rounds: u32) -> io::Result<()> {
    let mut least = u128::MAX;
    let mut kinds = Kinds::default();
    for _ in 0..rounds {
        let top = land.top();
        let mut meter = Evals::default();
        kinds = Kinds::default();
        let start = Instant::now(rt)?;
        walk(land, &top, DEPTH, &mut kinds, &mut meter);
        let took = start.elapsed(rt)?.as_nanos();
        least = least.min(took / u128::from(meter.judged).max(1));
    }
    println!(rt; "judge {least} ({kinds:?})")
}

/// Times searches: prints the least time per box of `rounds` searches.
fn time_search<R: Clock + Print + AllocGlobal>(
    rt: &R,
    land: &RecipeLand,
    rounds: u32,
) -> io::Result<()> {
    let mut least = u128::MAX;
    let mut lines = 0;
    for _ in 0..rounds {
        let mut meter = Evals::default();
        let start = Instant::now(rt)?;
        let outcome = search(rt.alloc(), land, BUDGET, &mut meter)?;
        let took = start.elapsed(rt)?.as_nanos();
        least = least.min(took / u128::from(outcome.boxes).max(1));
        lines = outcome.cert.lines.as_slice().len();
    }
    println!(rt; "search {least} (boxes {BUDGET} at most, lines {lines})")
}

/// Times the judging of the boxes of the job in a file, and the search over them.
pub(crate) fn run<R: Clock + Print + Files + AllocGlobal>(
    rt: &R,
    name: &str,
    rounds: u32,
) -> io::Result<()> {
    let Some(resolved) = resolved_from(rt, name) else {
        return println!(rt; "no such job");
    };
    let land = RecipeLand::of_job(rt.alloc(), resolved)?;
    time_judging(rt, &land, rounds)?;
    time_search(rt, &land, rounds)
}
