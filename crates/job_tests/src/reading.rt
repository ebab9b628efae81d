use job_file::{BatchRule, Job, JobError, JobFault, JobRule, Part, read_job};
use std::alloc::Global;
use std::test::Fail;

const TOP: &str = "version = 1\ncurves = \"flat.csv\"\nsubstrate = \"p50\"\nstandard = \"p30\"\n";

const LIGHT: &str = "[[light]]\nweights = \"w.csv\"\ntolerance = 10\n";

const DYE: &str = "[[dye]]\nname = \"V\"\nprice = 3\nstep = 10\nmost = 1\n";

const DYEING: &str = "[[dye.dyeing]]\nunits = 10\ncurve = \"p30\"\n";

// Reads a job of these parts, in which a dye U comes before the dye of the parts.
fn read(alloc: Global, parts: [&str; 5], batch: BatchRule) -> Result<Job, JobError> {
    let [top, light, dye, dyeing, end] = parts;
    let first = "[[dye]]\nname = \"U\"\nprice = 3\nstep = 10\nmost = 1\n";
    let text = format!(in alloc; "{top}{light}{first}{DYEING}{dye}{dyeing}{end}")?;
    read_job(alloc, text.as_bytes(), batch)
}

fn fault_of(read: Result<Job, JobError>) -> Option<JobFault> {
    match read {
        Err(JobError::Fault(fault)) => Some(fault),
        _ => None,
    }
}

fn fault(part: Part, item: u32, sub: u32, rule: JobRule) -> Option<JobFault> {
    Some(JobFault {
        part,
        item,
        sub,
        rule,
    })
}

#[test]
fn accepts_a_job(rt: HostRuntime) -> Result<(), Fail> {
    let end = "[[pair]]\na = \"U\"\nb = \"V\"\n[batch]\ncurve = \"p50\"\nsteps = [1, 0]\n";
    let parts = [TOP, LIGHT, DYE, DYEING, end];
    let read = read(rt.alloc(), parts, BatchRule::Either);
    assert!(rt; read.is_ok());
    if let Ok(job) = read {
        assert_eq!(rt; job.standard.as_str(), "p30");
        assert_eq!(rt; (job.load, job.max_dyes, job.max_total), (1, 12, 240_000));
        assert_eq!(rt; (job.max_cost, job.budget), (None, 100_000));
        assert_eq!(rt; (job.light.len(), job.dye.len(), job.pair.len()), (1, 2, 1));
        assert!(rt; job.batch.is_some());
    }
    Ok(())
}

#[test]
fn first_faults(rt: HostRuntime) -> Result<(), Fail> {
    let batch = "[batch]\ncurve = \"p50\"\nsteps = [1, 0]\n";
    let costly = "[[dye]]\nname = \"V\"\nprice = -1\nstep = 10\nmost = 1\n";
    let double = "[[dye]]\nname = \"U\"\nprice = 3\nstep = 10\nmost = 1\n";
    let wide = "[[dye]]\nname = \"V\"\nprice = 3\nstep = 10\nmost = 2001\n";
    let stray = "light = []\n";
    for (parts, rule, want) in [
        (
            ["=", "", "", "", ""],
            BatchRule::Either,
            fault(Part::Job, 0, 0, JobRule::NotToml),
        ),
        (
            ["", LIGHT, DYE, DYEING, ""],
            BatchRule::Either,
            fault(Part::Job, 0, 0, JobRule::NotVersion1),
        ),
        (
            [TOP, LIGHT, DYE, DYEING, batch],
            BatchRule::Without,
            fault(Part::Job, 0, 0, JobRule::UnknownKey),
        ),
        (
            [TOP, LIGHT, DYE, DYEING, ""],
            BatchRule::With,
            fault(Part::Job, 0, 0, JobRule::MissingKey),
        ),
        (
            [TOP, LIGHT, costly, DYEING, ""],
            BatchRule::Without,
            fault(Part::Dye, 2, 0, JobRule::OutOfRange),
        ),
        (
            [TOP, LIGHT, double, DYEING, ""],
            BatchRule::Without,
            fault(Part::Dye, 2, 0, JobRule::DoubleDye),
        ),
        (
            [TOP, LIGHT, wide, DYEING, ""],
            BatchRule::Without,
            fault(Part::Dye, 2, 0, JobRule::TooWide),
        ),
        (
            [TOP, "light = []\n", DYE, DYEING, ""],
            BatchRule::Without,
            fault(Part::Job, 0, 0, JobRule::BadCount),
        ),
        (
            [TOP, "[light]\n", DYE, DYEING, ""],
            BatchRule::Without,
            fault(Part::Job, 0, 0, JobRule::WrongKind),
        ),
        (
            [TOP, LIGHT, DYE, DYEING, "units = 1\n"],
            BatchRule::Without,
            fault(Part::Job, 0, 0, JobRule::NotToml),
        ),
        (
            [TOP, LIGHT, DYE, DYEING, "[[dye.dyeing]]\nunits = 0\n"],
            BatchRule::Without,
            fault(Part::Dyeing, 2, 2, JobRule::OutOfRange),
        ),
        (
            [TOP, LIGHT, DYE, DYEING, "[[pair]]\na = \"U\"\nb = \"W\"\n"],
            BatchRule::Without,
            fault(Part::Pair, 1, 0, JobRule::UnknownDye),
        ),
        (
            [TOP, LIGHT, DYE, DYEING, "[[pair]]\na = \"U\"\nb = \"U\"\n"],
            BatchRule::Without,
            fault(Part::Pair, 1, 0, JobRule::SamePair),
        ),
        (
            [
                TOP,
                LIGHT,
                DYE,
                DYEING,
                "[batch]\ncurve = \"p50\"\nsteps = [1]\n",
            ],
            BatchRule::With,
            fault(Part::Batch, 0, 0, JobRule::BatchLength),
        ),
        (
            [
                TOP,
                LIGHT,
                DYE,
                DYEING,
                "[batch]\ncurve = \"p50\"\nsteps = [1, 2]\n",
            ],
            BatchRule::With,
            fault(Part::Batch, 0, 0, JobRule::OutOfRange),
        ),
        (
            [TOP, LIGHT, DYE, DYEING, stray],
            BatchRule::Without,
            fault(Part::Dyeing, 2, 1, JobRule::UnknownKey),
        ),
    ] {
        let got = fault_of(read(rt.alloc(), parts, rule));
        assert_eq!(rt; got, want);
    }
    Ok(())
}
