// The exports for a summary of every 64 rows: made whole, or refreshed for one band.
// The parameters of an export are C's, each slice and number a parameter of its own.
ghost use Rattle.std.specs.Prelude.{◌≡◌, length};
ghost use Rattle.desks.specs.Desks.{sight_of};
ghost use Rattle.checks.specs.Tables.{table_of};
ghost use Rattle.bands.specs.Calls.{bands_of, band_of};
ghost use Rattle.aktyrbuz.specs.BandsExported.{bands_leaves, bands_export};

use checks::Table;
use desks::Sight;
use told::tell;

pub fn aktyrbuz_bands(
    segments: &[f32],
    owners: &[u64],
    segment_count: u32,
    entries: &[u32],
    entry_count: u32,
    row_starts: &[u32],
    height: u32,
    splines: u64,
    bits: &[u8],
    desk: u32,
    width: u32,
    bands: &mut [u32],
    answer: &mut [i64; 5],
) -> u32
    ensures { bands_leaves result answer.new bands.new
        ≡ bands_export (bands_of (table_of segments.now segment_count entries.now entry_count row_starts.now height) (sight_of owners.now splines bits.now desk) width (length bands.old)) }
{
    let table = Table {
        segments,
        segment_count,
        entries,
        entry_count,
        row_starts,
        height,
    };
    let sight = Sight {
        owners,
        splines,
        bits,
        desk,
    };
    tell(answer, bands::make(&table, &sight, width, bands))
}

pub fn aktyrbuz_band(
    segments: &[f32],
    owners: &[u64],
    segment_count: u32,
    entries: &[u32],
    entry_count: u32,
    row_starts: &[u32],
    height: u32,
    splines: u64,
    bits: &[u8],
    desk: u32,
    width: u32,
    bands: &mut [u32],
    band: u32,
    answer: &mut [i64; 5],
) -> u32
    ensures { bands_leaves result answer.new bands.new
        ≡ bands_export (band_of (table_of segments.now segment_count entries.now entry_count row_starts.now height) (sight_of owners.now splines bits.now desk) width band bands.old) }
{
    let table = Table {
        segments,
        segment_count,
        entries,
        entry_count,
        row_starts,
        height,
    };
    let sight = Sight {
        owners,
        splines,
        bits,
        desk,
    };
    tell(answer, bands::refresh(&table, &sight, width, bands, band))
}
