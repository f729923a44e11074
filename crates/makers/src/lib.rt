// The scan of a row table that another maker offers: the first row whose starts are no good, or that lists a segment that it should not, twice or out of order.
#![tactic(auto)]

ghost use Rattle.std.specs.Prelude.{◌≡◌, ◌+◌, ◌*◌, ◌<◌, ◌≤◌, ◌^◌, length};
ghost use Rattle.rows.specs.Rows.{in_row};
ghost use Rattle.makers.specs.Check.{wrong_from};
ghost use Rattle.makers.specs.Steps.{rising, row_fits, HasSegments};

use checks::Table;
use segments::Segment;

// Whether segment i has row y.
fn has_row(segments: &[f32], i: usize, y: usize) -> bool
    requires i_in_bounds { 8 * i + 8 ≤ length segments.now }
    requires y_bound { y < 2 ^ 24 }
    ensures { result ≡ in_row segments.now i y }
{
    Segment::at(segments, i).rows().contains(y as u32)
}

// Whether the listed numbers ascend and each names a segment that has row y.
fn entries_rise(table: &Table<'_>, listed: &[u32], y: usize) -> bool
    requires segments { HasSegments table.now × (y < 2 ^ 24) }
    ensures { result ≡ rising (λ i. in_row table.now.segments.now i y) table.now.segment_count 0 listed.now }
{
    let mut least: u32 = 0;
    for &i in listed {
        if i < least {
            return false;
        }
        if table.segment_count <= i {
            return false;
        }
        if !has_row(table.segments, i as usize, y) {
            return false;
        }
        least = i + 1;
    }
    true
}

// Whether the starts of row y are good, and it lists no segment that it should not.
fn row_fits(table: &Table<'_>, y: usize) -> bool
    requires entries { (table.now.entry_count ≤ length table.now.entries.now) × (y + 1 < length table.now.row_starts.now) }
    requires segments { HasSegments table.now × (y < 2 ^ 24) }
    ensures { result ≡ row_fits (in_row table.now.segments.now) table.now.segment_count table.now.row_starts.now table.now.entries.now table.now.entry_count y }
{
    let b = table.row_starts[y] as usize;
    let e = table.row_starts[y + 1] as usize;
    b <= e && e <= table.entry_count as usize && entries_rise(table, &table.entries[b..e], y)
}

// The first of `height` rows that does not fit, or `height`.
pub fn first_unfit(table: &Table<'_>, height: usize) -> usize
    requires entries { (table.now.entry_count ≤ length table.now.entries.now) × (height < length table.now.row_starts.now) × (height ≤ 2 ^ 23) }
    requires segments { HasSegments table.now }
    ensures { result ≡ wrong_from (row_fits (in_row table.now.segments.now) table.now.segment_count table.now.row_starts.now table.now.entries.now table.now.entry_count) 0 height }
{
    for y in 0..height {
        if !row_fits(table, y) {
            return y;
        }
    }
    height
}
