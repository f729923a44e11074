// The check of a row table that another maker offers. Where every row fits, a row is wrong exactly if it lists too few, and what lacks up to a row
// never gets less with the next: the first such row is found by halving, with a sum over the segments at each step, and no working buffer is needed.
#![tactic(auto)]

ghost use Rattle.std.specs.Prelude.{◌≡◌, ◌<◌, ◌≤◌, ◌^◌, ltb, length, get_or};
ghost use Rattle.rows.specs.Rows.{start_of, in_row};
ghost use Rattle.checks.specs.Tables.{table_in};
ghost use Rattle.makers.specs.Check.{row_right, wrong_from, offered_counts_good, check_in};
ghost use Rattle.makers.specs.Steps.{Fitting, HasSegments};

use checks::Table;
use codes::{Code, Refusal};
use rows::Scene;

// Whether the first n rows list too few.
fn short_before(table: &Table<'_>, n: usize) -> bool
    requires segments { HasSegments table.now }
    requires n_bound { (n ≤ 2 ^ 23) × (n < length table.now.row_starts.now) }
    ensures { result ≡ ltb (get_or table.now.row_starts.now n 0) (start_of (in_row table.now.segments.now) table.now.segment_count n) }
{
    let scene = Scene {
        segments: table.segments,
        count: table.segment_count as usize,
        height: n,
    };
    u64::from(table.row_starts[n]) < rows::total(&scene)
}

// The first row that lists too few, of the rows below `bad`, which all fit; or `bad`.
fn first_short(table: &Table<'_>, bad: usize) -> usize
    requires segments { HasSegments table.now }
    requires bad_bound { (bad ≤ 2 ^ 23) × (bad < length table.now.row_starts.now) }
    requires fitting { Fitting (in_row table.now.segments.now) table.now.segment_count table.now.row_starts.now table.now.entries.now table.now.entry_count bad }
    ensures { result ≡ wrong_from (row_right (in_row table.now.segments.now) table.now.segment_count table.now.row_starts.now table.now.entries.now table.now.entry_count) 0 bad }
{
    if !short_before(table, bad) {
        return bad;
    }
    let mut low = 0;
    let mut high = bad;
    while low + 1 < high {
        let middle = low + (high - low) / 2;
        if short_before(table, middle) {
            high = middle;
        } else {
            low = middle;
        }
    }
    high - 1
}

// Whether the counts are within their limits and their buffers.
#[tactic(auto, unfolding(makers::specs::Check::offered_counts_good))]
fn counts_good(table: &Table<'_>) -> bool
    ensures { result ≡ offered_counts_good table.now.segments.now table.now.segment_count table.now.entries.now table.now.entry_count }
{
    table.segment_count <= 16777216
        && 8 * (table.segment_count as usize) <= table.segments.len()
        && table.entry_count <= 1073741824
        && table.entry_count as usize <= table.entries.len()
}

// The first wrong row of a table whose counts are good and whose first row starts at 0, or `height`.
fn first_wrong(table: &Table<'_>, height: usize) -> usize
    requires segments { HasSegments table.now }
    requires entries { (table.now.entry_count ≤ length table.now.entries.now) × (height < length table.now.row_starts.now) × (height ≤ 2 ^ 23) }
    requires row_starts_value { get_or table.now.row_starts.now 0 0 ≡ 0 }
    ensures { result ≡ wrong_from (row_right (in_row table.now.segments.now) table.now.segment_count table.now.row_starts.now table.now.entries.now table.now.entry_count) 0 height }
{
    let bad = makers::first_unfit(table, height);
    first_short(table, bad)
}

// Whether the row starts and entries are the row table of the segments: how many entries it has; if not, the first row that is wrong.
pub fn check(table: &Table<'_>) -> Result<u32, Refusal>
    ensures { result ≡ check_in (table_in table.now) }
{
    if 8388608 < table.height {
        return Err((Code::Size, 0));
    }
    let rows = table.height as usize;
    if table.row_starts.len() != rows + 1 {
        return Err((Code::Shape, 0));
    }
    if !counts_good(table) {
        return Err((Code::Table, 0));
    }
    if table.row_starts[0] != 0 {
        return Err((Code::Table, 0));
    }
    let wrong = first_wrong(table, rows);
    if wrong < rows {
        return Err((Code::Table, wrong));
    }
    if table.row_starts[rows] != table.entry_count {
        return Err((Code::Table, rows));
    }
    Ok(table.entry_count)
}
