//! The header of a file of columns.

ghost use Rattle.std.specs.Prelude.{◌≡◌, ℕ, ◌+◌, ◌<◌, ◌≤◌, ◌^◌, List, [], length, map, vec_len, IfOk};
ghost use Rattle.std.specs.List.{list_any, IsDistinct};
ghost use Rattle.std.specs.Str.{bytes_eq};
ghost use Rattle.spectral_tables.specs.Faults.{each, Gives, unless_fault};
ghost use Rattle.spectral_tables.specs.Columns.{is_column_header, next_name, next_different, names_of};

use crate::column_rule::ColumnRule;
use crate::fault::{Cell, TableError, TableFault, TableRule};
use crate::fields::begins_with;
use std::alloc::Global;

fn is_column_header(fields: &[&[u8]]) -> bool
    ensures { result ≡ is_column_header (map (λ f. f.now) fields.now) }
{
    begins_with(fields, b"nm") && 2 <= fields.len() && fields.len() <= 65
}

/// The cell of the header after this many names.
fn cell_after(names: usize) -> Cell
    requires { names < 65 }
    ensures row { result.row ≡ 1 }
    ensures column { result.column ≡ names + 2 }
{
    Cell {
        row: 1,
        column: names as u32 + 2,
    }
}

fn all_names<'a, R: ColumnRule>(
    alloc: Global,
    rule: &R,
    fields: &[&'a [u8]],
) -> Result<Vec<&'a [u8]>, TableError>
    requires { length fields.now < 65 }
    ensures is { Gives (λ v. map (λ f. f.now) v.items) result
        (each (next_name (R.rule rule.now)) [] (map (λ f. f.now) fields.now)) }
    ensures count { IfOk result (λ v. vec_len v ≡ length fields.now) }
{
    let mut names = Vec::new(alloc);
    for field in fields {
        cell_after(names.len()).ensure(rule.is_column(*field), TableRule::NoHeader)?;
        names.push(*field)?;
    }
    Ok(names)
}

fn is_among(name: &[u8], names: &[&[u8]]) -> bool
    ensures { result ≡ list_any (λ n. bytes_eq name.now n.now) names.now }
{
    names.iter().any(|earlier| name == *earlier)
}

fn is_different(earlier: &[&[u8]], name: &[u8]) -> Result<(), TableFault>
    requires { length earlier.now < 65 }
    ensures { unless_fault result name.now
        ≡ next_different (map (λ n. n.now) earlier.now) name.now }
{
    cell_after(earlier.len()).ensure(!is_among(name, earlier), TableRule::DoubleName)
}

fn all_different(names: &[&[u8]]) -> Result<(), TableFault>
    requires { length names.now < 65 }
    ensures { unless_fault result (map (λ n. n.now) names.now)
        ≡ each next_different [] (map (λ n. n.now) names.now) }
{
    for (i, name) in names.iter().enumerate() {
        is_different(&names[..i], *name)?;
    }
    Ok(())
}

/// The names of the columns: the fields of the header after `nm`.
#[tactic(auto, unfolding(crate::specs::Columns::names_of))]
pub(crate) fn names_of<'a, R: ColumnRule>(
    alloc: Global,
    rule: &R,
    fields: &[&'a [u8]],
) -> Result<Vec<&'a [u8]>, TableError>
    ensures is { Gives (λ v. map (λ n. n.now) v.items) result
        (names_of (R.rule rule.now) (map (λ f. f.now) fields.now)) }
    ensures distinct { IfOk result (λ v. IsDistinct bytes_eq (map (λ n. n.now) v.items)) }
    ensures some { IfOk result (λ v. 1 ≤ vec_len v) }
    ensures few { IfOk result (λ v. vec_len v < 65) }
{
    let start = Cell { row: 1, column: 1 };
    start.ensure(is_column_header(fields), TableRule::NoHeader)?;
    let names = all_names(alloc, rule, &fields[1..])?;
    all_different(&names)?;
    Ok(names)
}
