//! The curves of a job, under their names.

ghost use Rattle.std.specs.Prelude.{◌≡◌, ◌++◌, All, IfOk, OnOk, length, string_bytes};
ghost use Rattle.std.specs.List.{flat_map};
ghost use Rattle.demo_jobs.specs.CurveText.{book_of, dye_book, dye_name, dyeing_name, job_book};
ghost use Rattle.demo_jobs.specs.Dyes.{IsDrawn};

use crate::cloths::{dyed, substrate};
use crate::dyes::{DrawnDye, drawn_dyes, hidden_recipe};
use crate::standard::{DYEINGS, standard};
use itoa::Buffer;
use spectral_tables::Curve;
use std::alloc::{AllocError, Global};

/// Curves, each with its name.
pub(crate) type Named = Vec<(String, Curve)>;

/// The name of a dye, as in `d1`.
#[tactic(auto, unfolding(crate::specs::CurveText::dye_name))]
pub(crate) fn dye_name(alloc: Global, number: u32) -> Result<String, AllocError>
    ensures { IfOk result (λ s. string_bytes s ≡ dye_name number) }
{
    let mut name = String::from_str(alloc, "d")?;
    name.push_str(Buffer::new().format(number))?;
    Ok(name)
}

/// The name of a dyeing, as in `d1c1`.
#[tactic(auto, unfolding(crate::specs::CurveText::dyeing_name))]
pub(crate) fn dyeing_name(alloc: Global, dye: u32, number: u32) -> Result<String, AllocError>
    ensures { IfOk result (λ s. string_bytes s ≡ dyeing_name dye number) }
{
    let mut name = dye_name(alloc, dye)?;
    name.push_str("c")?;
    name.push_str(Buffer::new().format(number))?;
    Ok(name)
}

/// Appends the curves of the dyeings of a dye.
#[tactic(auto, unfolding(crate::specs::CurveText::dye_book))]
fn push_dyeings(alloc: Global, book: &mut Named, dye: &DrawnDye) -> Result<(), AllocError>
    requires { IsDrawn dye.now }
    ensures { OnOk result (book_of book.new.items ≡ book_of book.old.items ++ dye_book dye.now) }
{
    for (number, units) in DYEINGS {
        let name = dyeing_name(alloc, dye.number, number)?;
        book.push((name, dyed(dye, units)))?;
    }
    Ok(())
}

/// Appends the curves of the dyeings of all dyes.
fn push_dyes(alloc: Global, book: &mut Named, dyes: &[DrawnDye]) -> Result<(), AllocError>
    requires { All IsDrawn dyes.now }
    ensures { OnOk result (book_of book.new.items
        ≡ book_of book.old.items ++ flat_map dye_book dyes.now) }
{
    for dye in dyes {
        push_dyeings(alloc, book, dye)?;
    }
    Ok(())
}

/// The curves of the job that these draws make.
#[tactic(auto, unfolding(crate::specs::CurveText::job_book))]
pub(crate) fn job_book(alloc: Global, draws: &[u32]) -> Result<Named, AllocError>
    requires { length draws.now ≡ 30 }
    ensures { IfOk result (λ v. book_of v.items ≡ job_book draws.now) }
{
    let dyes = drawn_dyes(draws);
    let standard = standard(alloc, dyes.as_slice(), hidden_recipe(draws).as_slice())?;
    let mut book = Vec::new(alloc);
    book.push((String::from_str(alloc, "sub")?, substrate()))?;
    book.push((String::from_str(alloc, "std")?, standard))?;
    push_dyes(alloc, &mut book, dyes.as_slice())?;
    Ok(book)
}
