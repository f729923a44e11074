// `gauge bands`: a summary of every 64 rows of a table for a desk, a line a band.
#![tactic(auto)]

use checks::Table;
use desks::Sight;
use std::io::Stdout;
use words::{Failure, out};

// Five for each band of as many rows as this program has room for.
const CELLS: usize = 1280;

// One band, by its five cells; the last column is told, not the one past it.
fn say_band(to: Stdout, b: u32, height: u32, cells: &[u32]) -> Result<(), Failure> {
    let &[entries, least, greatest, first, past] = cells else {
        return Err(Failure::Refused);
    };
    let from = u64::from(b) * 64;
    let last = u64::from(height).min(from + 64).saturating_sub(1);
    if entries == 0 {
        return out(
            to,
            format_args!("band {b}, rows {from} to {last}: nothing\n"),
        );
    }
    if past == 0 {
        return out(
            to,
            format_args!(
                "band {b}, rows {from} to {last}: {entries} entries, segments {least} to {greatest}, no column\n"
            ),
        );
    }
    let column = past - 1;
    out(
        to,
        format_args!(
            "band {b}, rows {from} to {last}: {entries} entries, segments {least} to {greatest}, columns {first} to {column}\n"
        ),
    )
}

// Every band, one after another.
fn say_bands(to: Stdout, bands: u32, height: u32, cells: &[u32]) -> Result<(), Failure> {
    for b in 0..bands {
        let at = 5 * b as usize;
        let band = cells.get(at..at + 5).ok_or(Failure::Refused)?;
        say_band(to, b, height, band)?;
    }
    Ok(())
}

// The bands of a table, without what the bytes hide for the desk, a byte a spline.
pub fn say(to: Stdout, table: &Table<'_>, sight: &Sight<'_>, width: u32) -> Result<(), Failure>
    ensures { Unit {0} }
{
    let mut cells = [0u32; CELLS];
    let bands = bands::make(table, sight, width, &mut cells).map_err(
        |refusal| refusals::of_building(refusal),
    )?;
    say_bands(to, bands, table.height, &cells)
}
