// A summary of every 64 rows of a table, for a desk and a width: made whole, or refreshed for one band.
#![tactic(auto)]

ghost use Rattle.std.specs.Prelude.{◌≡◌, true, ◌+◌, ◌*◌, ◌^◌, ◌≤◌, length};
ghost use Rattle.std.proofs.lemmas.List.Edits.{sets};
ghost use Rattle.desks.specs.Desks.{sight_in};
ghost use Rattle.checks.specs.Tables.{table_in};
ghost use Rattle.checks.specs.Refusals.{Lent};
ghost use Rattle.checks.specs.Verdict.{Fine};
ghost use Rattle.bands.specs.Bands.{bands_in, rows_good_from, band_numbers, band_cells, put_bands};
ghost use Rattle.bands.specs.Calls.{before_rows, leaves, bands_of, band_of};

use band_sums::{BandNumbers, sum_band};
use checks::Table;
use codes::{Code, Refusal};
use desks::Sight;

// The five numbers, written from cell k on.
fn put(cells: &mut [u32], k: usize, numbers: BandNumbers)
    requires { k + 5 ≤ length cells.old }
    ensures { cells.new ≡ sets cells.old k (band_cells numbers) }
{
    cells[k..k + 5].copy_from_slice(&[
        numbers.entries,
        numbers.least,
        numbers.greatest,
        numbers.first,
        numbers.past,
    ]);
}

// How many bands there are of so many rows.
fn bands_in(height: u32) -> u32
    requires { height ≤ 2 ^ 23 }
    ensures { result ≡ bands_in height }
{
    (height + 63) / 64
}

// The numbers of every band, written into their cells; whether every row is good.
fn fill(table: &Table<'_>, sight: &Sight<'_>, width: u32, cells: &mut [u32]) -> bool
    requires lent { Lent (table_in table.now) (sight_in sight.now) }
    requires height_in_bounds { (5 * bands_in table.now.height ≤ length cells.old) × (width ≤ 2 ^ 23) }
    ensures value { result ≡ rows_good_from (table_in table.now) (sight_in sight.now) 0 table.now.height }
    ensures cells_after { result ≡ true → cells.new ≡ put_bands cells.old (band_numbers (table_in table.now) (sight_in sight.now) width) (bands_in table.now.height) }
{
    let bands = bands_in(table.height);
    for b in 0..bands {
        let Some(sum) = sum_band(table, sight, width, b) else {
            return false;
        };
        put(cells, 5 * (b as usize), sum);
    }
    true
}

// The checks before any row, in their order: the width, the counts, the desk, the bytes, and the room for all bands.
fn judge(table: &Table<'_>, sight: &Sight<'_>, width: u32, room: usize) -> Result<(), Code>
    ensures { result ≡ before_rows (table_in table.now) (sight_in sight.now) width room Fine }
{
    if 8388608 < width {
        return Err(Code::Size);
    }
    let counted = checks::counts_good(table, sight);
    if !counted {
        return Err(Code::Table);
    }
    if 2 <= sight.desk {
        return Err(Code::Desk);
    }
    if sight.bits.len() < sight.splines as usize {
        return Err(Code::Trace);
    }
    if room < 5 * (bands_in(table.height) as usize) {
        return Err(Code::Room);
    }
    Ok(())
}

// Makes the summary: five cells a band, and zeros behind the last band. A refusal leaves zeros.
pub fn make(
    table: &Table<'_>,
    sight: &Sight<'_>,
    width: u32,
    cells: &mut [u32],
) -> Result<u32, Refusal>
    ensures { leaves result cells.new ≡ bands_of (table_in table.now) (sight_in sight.now) width (length cells.old) }
{
    buffers::clear(cells);
    match judge(table, sight, width, cells.len()) {
        Err(code) => Err((code, 0)),
        Ok(()) => {
            if fill(table, sight, width, cells) {
                return Ok(bands_in(table.height));
            }
            buffers::clear(cells);
            Err((Code::Table, 0))
        }
    }
}

// Makes the five cells of one band anew. A refusal changes nothing.
pub fn refresh(
    table: &Table<'_>,
    sight: &Sight<'_>,
    width: u32,
    cells: &mut [u32],
    band: u32,
) -> Result<u32, Refusal>
    ensures { leaves result cells.new ≡ band_of (table_in table.now) (sight_in sight.now) width band cells.old }
{
    match judge(table, sight, width, cells.len()) {
        Err(code) => Err((code, 0)),
        Ok(()) => {
            let bands = bands_in(table.height);
            if bands <= band {
                return Err((Code::Band, 0));
            }
            let Some(sum) = sum_band(table, sight, width, band) else {
                return Err((Code::Table, 0));
            };
            put(cells, 5 * (band as usize), sum);
            Ok(bands)
        }
    }
}
