use crate::files::table;
use spectral_tables::{
    ColumnRange, ColumnRule, Columns, TABLE_LIMIT, TableError, TableFault, TableRule, WaveGrid,
    is_name, read_columns,
};
use std::alloc::Global;
use std::test::Fail;

// The rule of a file of constants: names that end with `.K` or `.S`, and numbers from 0 to 1000,
// where those under a name with `.S` are at least 0.0001.
struct Constants;

impl ColumnRule for Constants {
    ghost use Rattle.table_tests.specs.Constants.{constant_rule};

    ghost rule = { λ _. constant_rule };

    fn is_column(&self, name: &[u8]) -> bool {
        is_name(name) && (name.ends_with(b".K") || name.ends_with(b".S"))
    }

    fn range(&self, name: &[u8]) -> ColumnRange {
        ColumnRange {
            least: if name.ends_with(b".S") { 1 } else { 0 },
            most: 10_000_000,
        }
    }
}

fn read_constants(alloc: Global, text: &str) -> Result<Columns, TableError> {
    if text.len() as u64 > TABLE_LIMIT {
        return Err(TableError::Memory);
    }
    read_columns(alloc, text.as_bytes(), WaveGrid::Ten, &Constants)
}

#[test]
fn a_rule_of_constants(rt: HostRuntime) -> Result<(), Fail> {
    let plain = "nm,white.K,white.S,black.K,black.S";
    let cases = [
        (plain, "0,1,0.5,1", None),
        (plain, "0,1,0.5,0", Some((2, 5, TableRule::OutOfRange))),
        (
            plain,
            "0,1000.0001,0.5,1",
            Some((2, 3, TableRule::OutOfRange)),
        ),
        (
            "nm,white.K,white,.K,.S",
            "0,1,0.5,1",
            Some((1, 3, TableRule::NoHeader)),
        ),
        (
            "nm,.K,.S,.K,x",
            "0,1,0.5,1",
            Some((1, 5, TableRule::NoHeader)),
        ),
        (
            "nm,.K,.S,.K,.S",
            "0,1,0.5,1",
            Some((1, 4, TableRule::DoubleName)),
        ),
    ];
    for (header, first, bad) in cases {
        let text = table(rt.alloc(), [header, first, "0,1,0.5,1", ""], 31)?;
        let fault = match read_constants(rt.alloc(), text.as_str()) {
            Err(TableError::Fault(fault)) => Some(fault),
            _ => None,
        };
        let expected = bad.map(|(row, column, rule)| TableFault { row, column, rule });
        assert_eq!(rt; fault, expected, "{header} {first}");
    }
    Ok(())
}
