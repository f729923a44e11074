// The numbers of a band of a table, for a desk and a width: of each 64 rows, what is shown is summed entry by entry. Each entry is looked at once: it is checked and counted in one pass.
#![tactic(auto)]

ghost use Rattle.std.specs.Prelude.{◌≡◌, cond, ◌+◌, ◌-◌, ◌*◌, ◌^◌, ◌<◌, ◌≤◌, length, get_or};
ghost use Rattle.std.proofs.Math.Seq.{slice};
ghost use Rattle.desks.specs.Desks.{sight_in, hidden_in, Seen};
ghost use Rattle.checks.specs.Tables.{table_in};
ghost use Rattle.checks.specs.Refusals.{Lent};
ghost use Rattle.band_sums.specs.Numbers.{bands_in, rows_good_from, band_good, shown_from, numbers_over, band_numbers};
ghost use Rattle.band_sums.specs.Steps.{least_with, with_one, good_or, sum_over, sum_row};

use checks::Table;
use desks::Sight;
use segments::{Range, Segment};

// The numbers of a band: the entries shown, the least and the greatest segment number, the first column and one past the last.
#[derive(Clone, Copy)]
pub struct BandNumbers {
    pub entries: u32,
    pub least: u32,
    pub greatest: u32,
    pub first: u32,
    pub past: u32,
}

// The least segment number of what was summed and of entry i; the first entry sets it.
fn least_with(sum: BandNumbers, i: u32) -> u32
    ensures { result ≡ least_with sum i }
{
    if sum.entries == 0 {
        return i;
    }
    sum.least.min(i)
}

// The sum with entry i, which is shown.
fn with_shown(sum: BandNumbers, segments: &[f32], i: u32, width: u32) -> BandNumbers
    requires { (8 * i + 8 ≤ length segments.now) × (sum.entries < 2 ^ 30) }
    ensures { result ≡ with_one segments.now width sum i }
{
    let found = Range {
        first: sum.first,
        past: sum.past,
    };
    let joined = joins::with_segment(found, Segment::at(segments, i as usize), width);
    let least = least_with(sum, i);
    BandNumbers {
        entries: sum.entries + 1,
        least,
        greatest: sum.greatest.max(i),
        first: joined.first,
        past: joined.past,
    }
}

// The sum with entry i, unless its segment is hidden for the desk.
fn with_entry(
    sum: BandNumbers,
    table: &Table<'_>,
    sight: &Sight<'_>,
    i: u32,
    width: u32,
) -> BandNumbers
    requires { (8 * i + 8 ≤ length table.now.segments.now) × (sum.entries < 2 ^ 30) × Seen (sight_in sight.now) i }
    ensures { result ≡ cond (hidden_in (sight_in sight.now) i) sum (with_one table.now.segments.now width sum i) }
{
    if desks::hidden(sight, i as usize) {
        return sum;
    }
    with_shown(sum, table.segments, i, width)
}

// The sum with the entries from b up to e that are shown; None where one of them names no segment, or one whose owner is no spline.
fn sum_entries(
    sum: BandNumbers,
    table: &Table<'_>,
    sight: &Sight<'_>,
    b: usize,
    e: usize,
    width: u32,
) -> Option<BandNumbers>
    requires lent { Lent (table_in table.now) (sight_in sight.now) }
    requires b_le_e { (sum.entries ≤ b) × (b ≤ e) × (e ≤ 2 ^ 30) × (e ≤ length table.now.entries.now) }
    ensures { result ≡ sum_over table.now.segments.now table.now.segment_count (sight_in sight.now) width sum (slice b e table.now.entries.now) }
{
    let mut total = sum;
    for j in b..e {
        let i = table.entries[j];
        if table.segment_count <= i {
            return None;
        }
        if sight.splines <= sight.owners[i as usize] {
            return None;
        }
        total = with_entry(total, table, sight, i, width);
    }
    Some(total)
}

// The sum with the shown entries of row y; None where the row is bad.
fn sum_row(
    sum: BandNumbers,
    table: &Table<'_>,
    sight: &Sight<'_>,
    width: u32,
    y: usize,
) -> Option<BandNumbers>
    requires lent { Lent (table_in table.now) (sight_in sight.now) }
    requires y_lt_height { (y < table.now.height) × (sum.entries ≤ get_or table.now.row_starts.now y 0) }
    ensures { result ≡ sum_row (table_in table.now) (sight_in sight.now) width sum y }
{
    let b = table.row_starts[y] as usize;
    let e = table.row_starts[y + 1] as usize;
    if e < b {
        return None;
    }
    if (table.entry_count as usize) < e {
        return None;
    }
    sum_entries(sum, table, sight, b, e, width)
}

// The numbers of the rows from y up to `end`; None where one of them is bad.
fn sum_rows(
    table: &Table<'_>,
    sight: &Sight<'_>,
    width: u32,
    y: usize,
    end: usize,
) -> Option<BandNumbers>
    requires lent { Lent (table_in table.now) (sight_in sight.now) }
    requires y_le_end { (y ≤ end) × (end ≤ table.now.height) × (width ≤ 2 ^ 23) }
    ensures { result ≡ good_or (rows_good_from (table_in table.now) (sight_in sight.now) y (end - y)) (numbers_over (table_in table.now) width (shown_from (table_in table.now) (sight_in sight.now) y (end - y))) }
{
    let mut sum = BandNumbers {
        entries: 0,
        least: 0,
        greatest: 0,
        first: 0,
        past: 0,
    };
    for at in y..end {
        sum = sum_row(sum, table, sight, width, at)?;
    }
    Some(sum)
}

// The numbers of band b; None where one of its rows is bad.
pub fn sum_band(table: &Table<'_>, sight: &Sight<'_>, width: u32, b: u32) -> Option<BandNumbers>
    requires lent { Lent (table_in table.now) (sight_in sight.now) }
    requires b_bound { (b < bands_in table.now.height) × (width ≤ 2 ^ 23) }
    ensures { result ≡ good_or (band_good (table_in table.now) (sight_in sight.now) b) (band_numbers (table_in table.now) (sight_in sight.now) width b) }
{
    let first = 64 * (b as usize);
    let end = (first + 64).min(table.height as usize);
    sum_rows(table, sight, width, first, end)
}
