use std::alloc::{AllocError, Global};

/// The header of the file of flat curves.
pub(crate) const FLAT_HEADER: &str = "nm,p100,p50,p30,p12,p6,p08,p001";

/// The values of the flat curves at each wavelength.
pub(crate) const FLAT_VALUES: &str = "100,50,30,12.5,6.4,0.8,0.01";

/// The header of a weights file.
pub(crate) const LIGHT_HEADER: &str = "nm,X,Y,Z";

/// Weights of one.
pub(crate) const ONES: &str = "1,1,1";

/// A file: a header, the values at 400, 500 and 600 nm, the others up to the last wavelength, and
/// an end.
pub(crate) fn table(
    alloc: Global,
    header: &str,
    at: [&str; 3],
    other: &str,
    last: u32,
    end: &str,
) -> Result<String, AllocError> {
    let mut text = format!(in alloc; "{header}\n")?;
    for tens in 40..=last / 10 {
        let wavelength = 10 * tens;
        let values = match tens {
            40 => at[0],
            50 => at[1],
            60 => at[2],
            _ => other,
        };
        write!(text, "{wavelength},{values}\n")?;
    }
    text.push_str(end)?;
    Ok(text)
}

/// The file of flat curves with another header and other values at 400 nm, up to a last wavelength.
pub(crate) fn flat_like(
    alloc: Global,
    header: &str,
    first: &str,
    last: u32,
) -> Result<String, AllocError> {
    table(
        alloc,
        header,
        [first, FLAT_VALUES, FLAT_VALUES],
        FLAT_VALUES,
        last,
        "",
    )
}

/// The file of flat curves.
pub(crate) fn flat(alloc: Global) -> Result<String, AllocError> {
    flat_like(alloc, FLAT_HEADER, FLAT_VALUES, 700)
}

/// Weights of one at each wavelength.
pub(crate) fn even_light(alloc: Global) -> Result<String, AllocError> {
    table(
        alloc,
        LIGHT_HEADER,
        [ONES, ONES, ONES],
        ONES,
        700,
        "white,31,31,31\n",
    )
}

/// Weights that pick one wavelength for each of X, Y and Z.
pub(crate) fn picking_light(alloc: Global) -> Result<String, AllocError> {
    table(
        alloc,
        LIGHT_HEADER,
        ["0,0,1", "0,1,0", "1,0,0"],
        "0,0,0",
        700,
        "white,1,1,1\n",
    )
}

/// Three curves, each two of which differ at some of the picked wavelengths.
pub(crate) fn three_curves(alloc: Global) -> Result<String, AllocError> {
    table(
        alloc,
        "nm,q1,q2,q3",
        ["2.7,4.2875,2.7", "12.5,12.5,6.4", "17.5616,19.5112,12.5"],
        "10,10,10",
        700,
        "",
    )
}

/// The lines of `ks` where each wavelength has the same pair of ends.
pub(crate) fn ks_lines(alloc: Global, pair: &str) -> Result<String, AllocError> {
    let mut text = String::new(alloc);
    for tens in 40..=70u32 {
        let wavelength = 10 * tens;
        write!(text, "{wavelength} {pair}\n")?;
    }
    Ok(text)
}

/// A file: a header, values up to a wavelength and others from there on to 700 nm, and an end.
pub(crate) fn halves(
    alloc: Global,
    header: &str,
    last_low: u32,
    low: &str,
    high: &str,
    end: &str,
) -> Result<String, AllocError> {
    let mut text = format!(in alloc; "{header}\n")?;
    for tens in 40..=70 {
        let wavelength = 10 * tens;
        let values = if wavelength <= last_low { low } else { high };
        write!(text, "{wavelength},{values}\n")?;
    }
    text.push_str(end)?;
    Ok(text)
}
