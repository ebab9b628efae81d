use crate::files::{table, table_from, weights, weights_on};
use fix_bounds::Base;
use spectral_tables::{
    Curve, CurveBook, Spectrum, TABLE_LIMIT, TableError, TableFault, TableRule, WaveGrid, is_name,
    read_curves,
};
use std::alloc::Global;
use std::test::Fail;

const HEADER: &str = "nm,p100,p50,p30,p12,p6,p08,p001";

const VALUES: &str = "100,50,30,12.5,6.4,0.8,0.01";

fn fault_of<T: Drop>(read: Result<T, TableError>) -> Option<TableFault> {
    match read {
        Err(TableError::Fault(fault)) => Some(fault),
        _ => None,
    }
}

fn curves_on(alloc: Global, text: &str, grid: WaveGrid) -> Result<CurveBook, TableError> {
    if text.len() as u64 > TABLE_LIMIT {
        return Err(TableError::Memory);
    }
    read_curves(alloc, text.as_bytes(), grid)
}

fn curves(alloc: Global, text: &str) -> Result<CurveBook, TableError> {
    curves_on(alloc, text, WaveGrid::Ten)
}

#[test]
fn first_faults_of_curves(rt: HostRuntime) -> Result<(), Fail> {
    let low = "0.0099,50,30,12.5,6.4,0.8,0.01";
    let high = "100.0001,50,30,12.5,6.4,0.8,0.01";
    let strange = "5x,50,30,12.5,6.4,0.8,0.01";
    let double = "nm,p100,p50,p50,p12,p6,p08,p001";
    let cases = [
        (HEADER, low, 31, 2, 2, TableRule::OutOfRange),
        (HEADER, high, 31, 2, 2, TableRule::OutOfRange),
        (HEADER, strange, 31, 2, 2, TableRule::BadNumber),
        (HEADER, VALUES, 30, 32, 1, TableRule::BadWavelength),
        (HEADER, VALUES, 32, 33, 1, TableRule::BadWavelength),
        (double, VALUES, 31, 1, 4, TableRule::DoubleName),
        ("nm", VALUES, 31, 1, 1, TableRule::NoHeader),
        ("nm,p100,a\"b", VALUES, 31, 1, 3, TableRule::NoHeader),
        ("nm,p100,p50", VALUES, 31, 2, 8, TableRule::WrongCount),
    ];
    for (header, first, lines, row, column, rule) in cases {
        let text = table(rt.alloc(), [header, first, VALUES, ""], lines)?;
        let fault = fault_of(curves(rt.alloc(), text.as_str()));
        assert_eq!(rt;
            fault,
            Some(TableFault { row, column, rule }),
            "{header} {first} {lines}"
        );
    }
    Ok(())
}

#[test]
fn first_faults_of_weights(rt: HostRuntime) -> Result<(), Fail> {
    let cases = [
        (
            "nm,,,",
            "1,1,1",
            31,
            "white,15,31,31",
            33,
            2,
            TableRule::Unbalanced,
        ),
        (
            "nm,X,Y,Z",
            "1,1,1",
            31,
            "white,31,31,0",
            33,
            4,
            TableRule::WhiteNotPositive,
        ),
        (
            "nm,X,Y,Z",
            "1,1,1",
            31,
            "white,31,31,1000.00001",
            33,
            4,
            TableRule::OutOfRange,
        ),
        ("nm,X,Y,Z", "1,1,1", 31, "", 33, 1, TableRule::NoWhite),
        (
            "nm,X,Y,Z",
            "1,1,1",
            30,
            "white,31,31,31",
            32,
            1,
            TableRule::BadWavelength,
        ),
        (
            "nm,X,Y,Z",
            "1,1,1",
            45,
            "white,31,31,31",
            46,
            1,
            TableRule::BadWavelength,
        ),
        (
            "nm,X,Y,Z",
            "1,1,1",
            31,
            "white,31,31,31\n830,1,1,1",
            34,
            1,
            TableRule::BadWavelength,
        ),
        (
            "nm,X,Y,Z",
            "1,1,0.000001",
            31,
            "white,31,31,31",
            2,
            4,
            TableRule::BadNumber,
        ),
        (
            "nm,X,Y",
            "1,1,1",
            31,
            "white,31,31,31",
            1,
            1,
            TableRule::NoHeader,
        ),
    ];
    for (header, first, lines, last, row, column, rule) in cases {
        let text = table(rt.alloc(), [header, first, "1,1,1", last], lines)?;
        let fault = fault_of(weights(rt.alloc(), text.as_str()));
        assert_eq!(rt;
            fault,
            Some(TableFault { row, column, rule }),
            "{header} {first} {last}"
        );
    }
    Ok(())
}

fn named(alloc: Global, text: &str, name: &str) -> Option<Curve> {
    let book = curves(alloc, text).ok()?;
    book.find(name)?.clone().ok()
}

#[test]
fn plain_curves(rt: HostRuntime) -> Result<(), Fail> {
    let text = table(rt.alloc(), [HEADER, VALUES, VALUES, ""], 31)?;
    let curve = named(rt.alloc(), text.as_str(), "p001").ok_or("p001")?;
    assert_eq!(rt; curve.at(0), 100);
    assert_eq!(rt; curve.waves(), 31);
    assert!(rt; named(rt.alloc(), text.as_str(), "zz").is_none());
    Ok(())
}

#[test]
fn dressed_curves(rt: HostRuntime) -> Result<(), Fail> {
    let header = "\u{feff} nm\t, p100 ,\"p50\"\r\n";
    let lines = [header, "100,50\r", "\"100\",\t50 \r\n\r", ""];
    let text = table(rt.alloc(), lines, 31)?;
    let curve = named(rt.alloc(), text.as_str().trim_end(), "p50").ok_or("p50")?;
    assert_eq!(rt; curve.as_slice().len(), 31);
    assert_eq!(rt; curve.at(30), 500_000);
    Ok(())
}

#[test]
fn full_spectrum(rt: HostRuntime) {
    let spectrum: Spectrum<Base> = Curve::default().spectrum();
    assert_eq!(rt; spectrum.waves(), 40);
    assert_eq!(rt; spectrum.at(39).lo(), 1_000_000_000_000);
    assert!(rt; is_name(b"d1 c1") && !is_name(b""));
}

#[test]
fn folded_weights(rt: HostRuntime) -> Result<(), Fail> {
    let alloc = rt.alloc();
    let header = "nm,X,Y,Z\n380,1,2,3\n390,1,2,3";
    let text = table(alloc, [header, "-1,1,1", "1,1,1", "white,36,38,40.5\n"], 33)?;
    let weights = weights(alloc, text.as_str()).ok().ok_or("no weights")?;
    assert_eq!(rt; weights.waves(), 31);
    assert_eq!(rt; weights.at(0), [100_000, 500_000, 700_000]);
    assert_eq!(rt; weights.at(1), [100_000, 100_000, 100_000]);
    assert_eq!(rt; weights.at(30), [300_000, 300_000, 300_000]);
    assert_eq!(rt; weights.white(), [3_600_000, 3_800_000, 4_050_000]);
    let copy = weights.clone().ok().ok_or("no copy")?;
    assert_eq!(rt;
        (copy.at(0), copy.white()),
        (weights.at(0), weights.white())
    );
    Ok(())
}

#[test]
fn curves_on_each_grid(rt: HostRuntime) -> Result<(), Fail> {
    let cases = [
        (WaveGrid::Ten, (400, 10), 31, None),
        (WaveGrid::Twenty, (400, 20), 16, None),
        (WaveGrid::Wide, (360, 10), 40, None),
        (WaveGrid::Twenty, (400, 20), 15, Some(17)),
        (WaveGrid::Twenty, (400, 10), 31, Some(3)),
        (WaveGrid::Wide, (400, 10), 31, Some(2)),
        (WaveGrid::Wide, (360, 10), 41, Some(42)),
    ];
    for (grid, waves, lines, bad_row) in cases {
        let text = table_from(rt.alloc(), [HEADER, VALUES, VALUES, ""], waves, lines)?;
        let read = curves_on(rt.alloc(), text.as_str(), grid);
        let fault = bad_row.map(|row| TableFault {
            row,
            column: 1,
            rule: TableRule::BadWavelength,
        });
        assert_eq!(rt; fault_of(read), fault, "{lines} lines");
    }
    Ok(())
}

#[test]
fn weights_on_each_grid(rt: HostRuntime) -> Result<(), Fail> {
    let cases = [
        (WaveGrid::Ten, (400, 10), 31, "white,31,31,31", None),
        (WaveGrid::Twenty, (400, 20), 16, "white,16,16,16", None),
        (WaveGrid::Wide, (360, 10), 40, "white,40,40,40", None),
        (WaveGrid::Twenty, (400, 10), 31, "white,31,31,31", Some(3)),
        (WaveGrid::Wide, (400, 10), 31, "white,31,31,31", Some(2)),
    ];
    for (grid, waves, lines, white, bad_row) in cases {
        let parts = ["nm,X,Y,Z", "1,1,1", "1,1,1", white];
        let text = table_from(rt.alloc(), parts, waves, lines)?;
        let read = weights_on(rt.alloc(), text.as_str(), grid);
        let fault = bad_row.map(|row| TableFault {
            row,
            column: 1,
            rule: TableRule::BadWavelength,
        });
        assert_eq!(rt; fault_of(read), fault, "{white}");
    }
    Ok(())
}
