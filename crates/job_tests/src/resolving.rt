use job_file::{BatchRule, JobError, JobFault, JobRule, Part, read_job, resolve};
use spectral_tables::{CurveBook, TABLE_LIMIT, WaveGrid, Weights, read_curves, read_weights};
use std::alloc::{AllocError, Global};
use std::test::Fail;

// A job over three curves of one reflectance each, with these names of curves and this highest
// number of steps of its dye.
fn job(alloc: Global, names: [&str; 4], most: u16) -> Result<String, AllocError> {
    let [substrate, standard, dyeing, batch] = names;
    let top =
        "version = 1\ncurves = \"flat.csv\"\n[[light]]\nweights = \"w.csv\"\ntolerance = 10\n";
    let dye = format!(in alloc; "[[dye]]\nname = \"U\"\nprice = 3\nstep = 10\nmost = {most}\n")?;
    format!(in alloc;
        "substrate = \"{substrate}\"\nstandard = \"{standard}\"\n{top}{dye}[[dye.dyeing]]\n\
         units = 1\ncurve = \"{dyeing}\"\n[batch]\ncurve = \"{batch}\"\nsteps = [0]\n"
    )
}

// A table: the first line, a line for each wavelength, which ends with `line`, and then `end`.
fn table(alloc: Global, head: &str, line: &str, end: &str) -> Result<String, AllocError> {
    let mut text = format!(in alloc; "{head}\n")?;
    for i in 0..31u32 {
        write!(text, "{},{line}\n", 400 + 10 * i)?;
    }
    write!(text, "{end}")?;
    Ok(text)
}

fn book(alloc: Global) -> Option<CurveBook> {
    let text = table(alloc, "nm,p50,p30,p001", "50,30,0.01", "").ok()?;
    if text.len() as u64 > TABLE_LIMIT {
        return None;
    }
    read_curves(alloc, text.as_bytes(), WaveGrid::Ten).ok()
}

fn weights(alloc: Global) -> Option<Weights> {
    let text = table(alloc, "nm,X,Y,Z", "1,1,1", "white,31,31,31\n").ok()?;
    if text.len() as u64 > TABLE_LIMIT {
        return None;
    }
    read_weights(alloc, text.as_bytes(), WaveGrid::Ten).ok()
}

fn fault(part: Part, item: u32, sub: u32, rule: JobRule) -> Option<JobFault> {
    Some(JobFault {
        part,
        item,
        sub,
        rule,
    })
}

// The first fault of resolving a job over the three curves, if it has one.
fn fault_of(alloc: Global, names: [&str; 4], most: u16) -> Result<Option<JobFault>, Fail> {
    let text = job(alloc, names, most)?;
    let book = book(alloc).ok_or("no curves")?;
    let weights = weights(alloc).ok_or("no weights")?;
    let curve = book.find("p50").ok_or("no curve")?;
    let job = match read_job(alloc, text.as_bytes(), BatchRule::With) {
        Ok(job) => job,
        Err(_) => return Err("the job is refused".into()),
    };
    let mut list = Vec::new(alloc);
    if job.light.len() != 1 || curve.waves() != weights.waves() {
        return Err("another number".into());
    }
    list.push(weights)?;
    match resolve(alloc, job, &book, list) {
        Ok(_) => Ok(None),
        Err(JobError::Fault(fault)) => Ok(Some(fault)),
        Err(JobError::Memory) => Err("out of memory".into()),
    }
}

#[test]
fn first_faults(rt: HostRuntime) -> Result<(), Fail> {
    for (names, most, want) in [
        (["p50", "p30", "p30", "p50"], 1, None),
        (
            ["p51", "p31", "p31", "p51"],
            1,
            fault(Part::Job, 0, 0, JobRule::UnknownColumn),
        ),
        (
            ["p50", "p31", "p31", "p51"],
            1,
            fault(Part::Job, 0, 0, JobRule::UnknownColumn),
        ),
        (
            ["p50", "p30", "p31", "p51"],
            1,
            fault(Part::Dyeing, 1, 1, JobRule::UnknownColumn),
        ),
        (
            ["p50", "p30", "p30", "p51"],
            1,
            fault(Part::Batch, 0, 0, JobRule::UnknownColumn),
        ),
        (["p50", "p30", "p001", "p50"], 20, None),
        (
            ["p50", "p30", "p001", "p50"],
            21,
            fault(Part::Job, 0, 0, JobRule::TooStrong),
        ),
    ] {
        let got = fault_of(rt.alloc(), names, most)?;
        assert_eq!(rt; got, want);
    }
    Ok(())
}
