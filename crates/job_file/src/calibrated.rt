//! The dyes of a job, calibrated by the curves of a file.

ghost use Rattle.std.specs.Prelude.{◌≡◌, ◌≤◌, All, IfOk, [], length};
ghost use Rattle.ks_curves.specs.Dye.{IsDyeing as IsMeasured};
ghost use Rattle.spectral_tables.specs.CurveBook.{wave_count};
ghost use Rattle.job_keys.specs.Arrays.{each};
ghost use Rattle.job_file.specs.Dye.{IsDye};
ghost use Rattle.job_file.specs.Dyeing.{IsDyeing};
ghost use Rattle.job_keys.specs.Faults.{Gives};
ghost use Rattle.job_file.specs.Resolve.{curve_of, next_calibrated, next_measured};

use crate::dye::JobDye;
use crate::dyeing::JobDyeing;
use arrayvec::ArrayVec;
use job_keys::{JobError, JobRule, Part, Position};
use ks_curves::{Calibration, Dye};
use spectral_tables::{Curve, CurveBook};
use std::alloc::Global;

/// The curve of a name, or a fault where the book has none of this name.
pub(crate) fn curve_of(book: &CurveBook, position: Position, name: &str) -> Result<Curve, JobError>
    ensures is { Gives (λ c. c) result (curve_of book.now position name.now) }
    ensures waves { IfOk result (λ c. length c ≡ wave_count book.now) }
{
    let curve = book
        .find(name)
        .ok_or(position.fault(JobRule::UnknownColumn))?;
    Ok(curve.clone()?)
}

/// The next dyeing of the dye with this number, after those in `before`, with its curve.
fn next_measured(
    book: &CurveBook,
    dye: u32,
    before: &[(u32, Curve)],
    dyeing: &JobDyeing,
) -> Result<(u32, Curve), JobError>
    requires few { length before.now ≤ 8 }
    requires range { IsDyeing dyeing.now }
    ensures is { Gives (λ d. d) result (next_measured book.now dye before.now dyeing.now) }
    ensures range { IfOk result (IsMeasured (wave_count book.now)) }
{
    let position = Position {
        part: Part::Dyeing,
        item: dye,
        sub: before.len() as u32 + 1,
    };
    let curve = curve_of(book, position, dyeing.curve.as_str())?;
    Ok((dyeing.units, curve))
}

/// The dyeings of the dye with this number, in order, with their curves.
fn measured(
    book: &CurveBook,
    dye: u32,
    dyeings: &[JobDyeing],
) -> Result<ArrayVec<(u32, Curve), 8>, JobError>
    requires few { length dyeings.now ≤ 8 }
    requires range { All IsDyeing dyeings.now }
    ensures is { Gives (λ v. v.items) result (each (next_measured book.now dye) [] dyeings.now) }
    ensures count { IfOk result (λ v. length v.items ≡ length dyeings.now) }
    ensures range { IfOk result (λ v. All (IsMeasured (wave_count book.now)) v.items) }
{
    let mut measured = ArrayVec::new();
    for dyeing in dyeings {
        let next = next_measured(book, dye, measured.as_slice(), dyeing)?;
        measured.push(next);
    }
    Ok(measured)
}

/// The next dye, after those in `before`, calibrated on the substrate.
fn next_calibrated(
    book: &CurveBook,
    substrate: &Curve,
    before: &[Dye],
    dye: &JobDye,
) -> Result<Dye, JobError>
    requires few { length before.now ≤ 12 }
    requires range { IsDye dye.now }
    requires waves { length substrate.now ≡ wave_count book.now }
    ensures { Gives (λ d. d) result (next_calibrated book.now substrate.now before.now dye.now) }
{
    let number = before.len() as u32 + 1;
    let dyeings = measured(book, number, dye.dyeing.as_slice())?;
    Ok(Dye::of(Calibration::Line, dye.step, substrate.clone()?, dyeings))
}

/// The dyes, in order, calibrated on the substrate.
pub(crate) fn calibrated(
    alloc: Global,
    book: &CurveBook,
    substrate: &Curve,
    dyes: &[JobDye],
) -> Result<Vec<Dye>, JobError>
    requires few { length dyes.now ≤ 12 }
    requires range { All IsDye dyes.now }
    requires waves { length substrate.now ≡ wave_count book.now }
    ensures { Gives (λ v. v.items) result
        (each (next_calibrated book.now substrate.now) [] dyes.now) }
{
    let mut calibrated = Vec::new(alloc);
    for dye in dyes {
        let next = next_calibrated(book, substrate, calibrated.as_slice(), dye)?;
        if calibrated.push(next).is_err() {
            return Err(JobError::Memory);
        }
    }
    Ok(calibrated)
}
