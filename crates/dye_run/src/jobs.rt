//! Reading a job with its files, its curves and the weights of its lights, and another file that is
//! due with it.

ghost use Rattle.std.specs.Prelude.{◌≡◌, ◌≤◌, [], All, IfOk, length, map, option_map};
ghost use Rattle.job_file.specs.JobView.{job_view};
ghost use Rattle.spectral_tables.specs.CurveBook.{wave_count};
ghost use Rattle.spectral_tables.specs.Grid.{count_of};
ghost use Rattle.spectral_tables.specs.declared.grid.WaveGrid.TheVariants.{Ten};
ghost use Rattle.dye_run.specs.Files.{FitsFiles, IsShort};
ghost use Rattle.dye_run.specs.Inputs.{due_table};
ghost use Rattle.dye_run.specs.Jobs as spec;
ghost use Rattle.dye_run.specs.Jobs.{gathered_from, job_files, job_tables_from, read_from, reads_accepted, reads_gathered, reads_job, resolved_from, text_from, weights_after};
ghost use Rattle.run_core.specs.Judging.{Gives, IsMade};
ghost use Rattle.run_core.specs.Reading.{ReadsDue};
ghost use Rattle.run_core.specs.Views.{bytes_view, due_view};
ghost use Rattle.dye_run.specs.Views.{gathered_view, job_read_view, job_tables_view};
ghost use Rattle.job_file.specs.ResolvedView.{resolved_view};

use crate::inputs::due_table;
use crate::tables::table_from;
use job_file::{BatchRule, Job, JobError, JobLight, Resolved, read_job as job_of_bytes, resolve};
use run_core::{DueFile, Stop, read_any, read_each, read_one};
use shade_report::Refusal;
use shelf_io::Shelf;
use spectral_tables::{CurveBook, Weights};
use std::alloc::{AllocError, Global};

/// How many bytes a job file may have.
pub(crate) const JOB_LIMIT: u64 = 1_000_000;

/// The curves of a job, and the weights of its lights in their order.
#[derive(Drop)]
pub(crate) struct JobTables {
    pub book: CurveBook,
    pub weights: Vec<Weights>,
}

/// The job of a file, from the bytes that were read. These are `None` where the file has more bytes
/// than its limit, which is refused.
#[tactic(auto, unfolding(crate::specs::Jobs::job_from))]
pub(crate) fn job_from<'a>(
    alloc: Global,
    rule: BatchRule,
    name: &'a str,
    bytes_read: Option<&[u8]>,
) -> Result<Job, Stop<'a>>
    ensures { Gives job_view result
        (spec.job_from rule name.now (option_map (λ b. b.now) bytes_read.entry)) }
{
    let Some(bytes) = bytes_read else {
        return Err(Stop::Refused(Refusal::TooLong(name)));
    };
    match job_of_bytes(alloc, bytes, rule) {
        Ok(job) => Ok(job),
        Err(JobError::Fault(fault)) => Err(Stop::Refused(Refusal::Job(name, fault))),
        Err(JobError::Memory) => Err(Stop::Memory),
    }
}

/// The weights of lights, from the bytes read from their files.
fn weights_of<'n>(
    alloc: Global,
    lights: &'n [JobLight],
    bytes_read: &[Option<Vec<u8>>],
) -> Result<Vec<Weights>, Stop<'n>>
    requires count { length bytes_read.now ≡ length lights.now }
    requires short { All IsShort bytes_read.now }
    ensures is { Gives (λ w. w.items) result
        (weights_after [] (map (λ l. l.weights) lights.now) (map bytes_view bytes_read.now)) }
    ensures count { IfOk result (λ w. length w.items ≡ length lights.now) }
    ensures waves { IfOk result (λ w.
        All (λ w. length w.weights ≡ count_of Ten) w.items) }
{
    let mut weights = Vec::new(alloc);
    for (i, light) in lights.iter().enumerate() {
        let table: Weights = table_from(alloc, light.weights.as_str(), bytes_read[i].as_deref())?;
        weights.push(table)?;
    }
    Ok(weights)
}

/// The tables of a job, from the bytes read from its files: its curves, and the weights of its
/// lights in order.
#[tactic(auto, unfolding(crate::specs::Jobs::job_tables_from))]
pub(crate) fn tables_of<'n>(
    alloc: Global,
    job: &'n Job,
    bytes_read: &[Option<Vec<u8>>],
) -> Result<JobTables, Stop<'n>>
    requires { FitsFiles (length job.now.light.items) bytes_read.now }
    ensures is { Gives job_tables_view result
        (job_tables_from (job_view job.now) (map bytes_view bytes_read.now)) }
    ensures count { IfOk result (λ t. length t.weights.items ≡ length job.now.light.items) }
    ensures waves { IfOk result (λ t.
        All (λ w. length w.weights ≡ wave_count t.book) t.weights.items) }
{
    let [curves, others @ ..] = bytes_read else {
        return Err(Stop::Refused(Refusal::TooLong(job.curves.as_str())));
    };
    let book = table_from(alloc, job.curves.as_str(), curves.as_deref())?;
    let weights = weights_of(alloc, job.light.as_slice(), others)?;
    Ok(JobTables { book, weights })
}

/// The tables of a job, and the text of another file.
#[derive(Drop)]
pub(crate) struct Gathered {
    tables: JobTables,
    text: Vec<u8>,
}

/// A job that is resolved over its files, and the text of another file.
#[derive(Drop)]
pub(crate) struct JobRead {
    pub resolved: Resolved,
    pub text: Vec<u8>,
}

/// The text of a file that is due with a job, from the bytes that were read. These are `None` where
/// the file has more bytes than its limit, which is refused.
#[tactic(auto, unfolding(crate::specs::Jobs::text_from))]
fn text_from<'a>(
    alloc: Global,
    other: Option<DueFile<'a>>,
    bytes_read: Option<Vec<u8>>,
) -> Result<Vec<u8>, Stop<'a>>
    ensures { Gives (λ t. t.items) result
        (text_from (option_map due_view other.entry) (bytes_view bytes_read)) }
{
    let Some(file) = other else {
        return Ok(Vec::new(alloc));
    };
    match bytes_read {
        Some(bytes) => Ok(bytes),
        None => Err(Stop::Refused(Refusal::TooLong(file.name))),
    }
}

/// The tables of a job and the text of the other file, from the bytes that were read.
#[tactic(auto, unfolding(crate::specs::Jobs::gathered_from))]
fn gathered_of<'n>(
    alloc: Global,
    job: &'n Job,
    other: Option<DueFile<'n>>,
    job_bytes: &[Option<Vec<u8>>],
    other_bytes: Option<Vec<u8>>,
) -> Result<Gathered, Stop<'n>>
    requires { FitsFiles (length job.now.light.items) job_bytes.now }
    ensures is { Gives gathered_view result
        (gathered_from (job_view job.now) (option_map due_view other.entry)
        (map bytes_view job_bytes.now) (bytes_view other_bytes)) }
    ensures count { IfOk result (λ g. length g.tables.weights.items
        ≡ length job.now.light.items) }
    ensures waves { IfOk result (λ g.
        All (λ w. length w.weights ≡ wave_count g.tables.book) g.tables.weights.items) }
{
    let tables = tables_of(alloc, job, job_bytes)?;
    let text = text_from(alloc, other, other_bytes)?;
    Ok(Gathered { tables, text })
}

/// The files of a job, which are due: its curves, and the weights of its lights in order.
fn files_of<'n>(alloc: Global, job: &'n Job) -> Result<Vec<DueFile<'n>>, AllocError>
    ensures { IfOk result (λ files. map due_view files.items
        ≡ map due_table (job_files (job_view job.now))) }
{
    let mut files = Vec::new(alloc);
    files.push(due_table(job.curves.as_str()))?;
    for light in job.light.as_slice() {
        files.push(due_table(light.weights.as_str()))?;
    }
    Ok(files)
}

/// Reads the files that a job names and then the other file, which are all due, and makes the job's
/// tables.
fn read_gathered<'n, H: Shelf>(
    alloc: Global,
    shelf: &mut H,
    job: &'n Job,
    other: Option<DueFile<'n>>,
) -> Result<Gathered, Stop<'n>>
    ensures made { IsMade gathered_view (reads_gathered (job_view job.now) (option_map due_view other.entry))
        (H.view shelf.old) (H.view shelf.new) result }
    ensures reads { ReadsDue (reads_gathered (job_view job.now) (option_map due_view other.entry))
        (H.view shelf.old) (H.view shelf.new) }
    ensures count { IfOk result (λ g. length g.tables.weights.items
        ≡ length job.now.light.items) }
    ensures waves { IfOk result (λ g.
        All (λ w. length w.weights ≡ wave_count g.tables.book) g.tables.weights.items) }
{
    let files = files_of(alloc, job)?;
    let job_bytes = read_each(alloc, shelf, files.as_slice())?;
    let other_bytes = read_any(alloc, shelf, other)?;
    gathered_of(alloc, job, other, job_bytes.as_slice(), other_bytes)
}

/// Resolves a job over its tables.
pub(crate) fn resolved_from<'a>(
    alloc: Global,
    name: &'a str,
    job: Job,
    tables: JobTables,
) -> Result<Resolved, Stop<'a>>
    requires count { length tables.weights.items ≡ length job.light.items }
    requires waves { All (λ w. length w.weights ≡ wave_count tables.book)
        tables.weights.items }
    ensures { Gives resolved_view result
        (resolved_from name.now (job_view job) (job_tables_view tables)) }
{
    let JobTables { book, weights } = tables;
    match resolve(alloc, job, &book, weights) {
        Ok(resolved) => Ok(resolved),
        Err(JobError::Fault(fault)) => Err(Stop::Refused(Refusal::Job(name, fault))),
        Err(JobError::Memory) => Err(Stop::Memory),
    }
}

/// Resolves a job over its tables, and keeps the text of the other file.
fn read_from<'a>(
    alloc: Global,
    name: &'a str,
    job: Job,
    gathered: Gathered,
) -> Result<JobRead, Stop<'a>>
    requires count { length gathered.tables.weights.items ≡ length job.light.items }
    requires waves { All (λ w. length w.weights ≡ wave_count gathered.tables.book)
        gathered.tables.weights.items }
    ensures { Gives job_read_view result
        (read_from name.now (job_view job) (gathered_view gathered)) }
{
    let Gathered { tables, text } = gathered;
    let resolved = resolved_from(alloc, name, job, tables)?;
    Ok(JobRead { resolved, text })
}

/// Reads what an accepted job requires and the other file, and resolves the job.
fn read_accepted<'a, H: Shelf>(
    alloc: Global,
    shelf: &mut H,
    name: &'a str,
    job: Job,
    other: Option<DueFile<'a>>,
) -> Result<JobRead, Stop<'a>>
    ensures made { IsMade job_read_view
        (reads_accepted name.now (job_view job) (option_map due_view other.entry))
        (H.view shelf.old) (H.view shelf.new) result }
    ensures reads { ReadsDue (reads_accepted name.now (job_view job) (option_map due_view other.entry))
        (H.view shelf.old) (H.view shelf.new) }
{
    let gathered = match read_gathered(alloc, shelf, &job, other) {
        Ok(gathered) => gathered,
        Err(stop) => return Err(stop.owned(alloc)),
    };
    read_from(alloc, name, job, gathered)
}

/// Reads a job, which is due, and where it has no fault its tables and the other file, which are
/// then due; and resolves the job over its tables.
pub(crate) fn read_job<'a, H: Shelf>(
    alloc: Global,
    shelf: &mut H,
    rule: BatchRule,
    name: &'a str,
    other: Option<DueFile<'a>>,
) -> Result<JobRead, Stop<'a>>
    ensures made { IsMade job_read_view (reads_job rule name.now (option_map due_view other.entry))
        (H.view shelf.old) (H.view shelf.new) result }
    ensures reads { ReadsDue (reads_job rule name.now (option_map due_view other.entry))
        (H.view shelf.old) (H.view shelf.new) }
{
    let file = DueFile {
        name,
        limit: JOB_LIMIT,
    };
    let bytes_read = read_one(alloc, shelf, &file)?;
    let job = job_from(alloc, rule, name, bytes_read.as_deref())?;
    read_accepted(alloc, shelf, name, job, other)
}
