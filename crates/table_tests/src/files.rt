use spectral_tables::{TABLE_LIMIT, TableError, WaveGrid, Weights, read_weights};
use std::alloc::{AllocError, Global};

// A table of the header, a line at the first wavelength with the first values, lines every `step`
// nanometres with the second values, and the last line.
pub(crate) fn table_from(
    alloc: Global,
    parts: [&str; 4],
    (from, step): (u16, u16),
    lines: u32,
) -> Result<String, AllocError> {
    let [header, first, values, last] = parts;
    let mut text = format!(in alloc; "{header}\n{from},{first}\n")?;
    for i in 1..lines.min(50) {
        let nm = u32::from(from) + u32::from(step) * i;
        write!(text, "{nm},{values}\n")?;
    }
    text.push_str(last)?;
    Ok(text)
}

// The same at 400 nm and every 10 nm.
pub(crate) fn table(alloc: Global, parts: [&str; 4], lines: u32) -> Result<String, AllocError> {
    table_from(alloc, parts, (400, 10), lines)
}

pub(crate) fn weights_on(alloc: Global, text: &str, grid: WaveGrid) -> Result<Weights, TableError> {
    if text.len() as u64 > TABLE_LIMIT {
        return Err(TableError::Memory);
    }
    read_weights(alloc, text.as_bytes(), grid)
}

pub(crate) fn weights(alloc: Global, text: &str) -> Result<Weights, TableError> {
    weights_on(alloc, text, WaveGrid::Ten)
}
