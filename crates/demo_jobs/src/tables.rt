//! Tables of a TOML document.

ghost use Rattle.std.specs.Prelude.{◌≡◌, OnOk};
ghost use Rattle.toml.specs.Data.{string};
ghost use Rattle.toml.specs.View.{table_view, view};
ghost use Rattle.demo_jobs.specs.JobTable.{whole};
ghost use Rattle.demo_jobs.specs.Members.{insert_member};

use std::alloc::{AllocError, Global};
use toml::{Table, Value};

/// Puts a value under a key of a table.
pub(crate) fn put(
    alloc: Global,
    table: &mut Table,
    key: &str,
    value: Value,
) -> Result<(), AllocError>
    ensures { OnOk result (table_view table.new
        ≡ insert_member key.now (view value) (table_view table.old)) }
{
    let key = String::from_str(alloc, key)?;
    match table.insert(key, value) {
        Ok(_) => Ok(()),
        Err(_) => Err(AllocError),
    }
}

/// Puts a whole number under a key.
pub(crate) fn put_whole(
    alloc: Global,
    table: &mut Table,
    key: &str,
    number: u32,
) -> Result<(), AllocError>
    ensures { OnOk result (table_view table.new
        ≡ insert_member key.now (whole number) (table_view table.old)) }
{
    put(alloc, table, key, Value::Integer(i64::from(number)))
}

/// Puts a text under a key.
pub(crate) fn put_text(
    alloc: Global,
    table: &mut Table,
    key: &str,
    text: &str,
) -> Result<(), AllocError>
    ensures { OnOk result (table_view table.new
        ≡ insert_member key.now (string text.now) (table_view table.old)) }
{
    let value = Value::string(alloc, text)?;
    put(alloc, table, key, value)
}
