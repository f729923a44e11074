// The checks of a table and of a part of a row for a desk, before a pixel is drawn or a reach is told: the desk, the counts, the bytes, the row, the span, and the row's starts and entries.
#![tactic(auto)]

ghost use Rattle.std.specs.Prelude.{◌≡◌, ◌&&◌, ◌+◌, ◌<◌, ◌≤◌, leb, length};
ghost use Rattle.desks.specs.Desks.{sight_in, all_owned};
ghost use Rattle.checks.specs.Tables.{table_in, row_of};
ghost use Rattle.checks.specs.Checks.{counts_good_for, span_good, all_below, row_good_for, judge_row, judge_draw};

use codes::Code;
use desks::Sight;

// Segments, entries and row starts, each in a buffer with the count in use; the row starts are one more than the rows.
#[derive(Clone, Copy)]
pub struct Table<'a> {
    pub segments: &'a [f32],
    pub segment_count: u32,
    pub entries: &'a [u32],
    pub entry_count: u32,
    pub row_starts: &'a [u32],
    pub height: u32,
}

// Whether the listed numbers all name segments, and the owners of these are splines.
fn all_owned(table: &Table<'_>, sight: &Sight<'_>, listed: &[u32]) -> bool
    requires { table.now.segment_count ≤ length sight.now.owners.now }
    ensures { result ≡ (all_below table.now.segment_count listed.now && all_owned sight.now.owners.now sight.now.splines listed.now) }
{
    for &i in listed {
        if table.segment_count <= i {
            return false;
        }
        if sight.splines <= sight.owners[i as usize] {
            return false;
        }
    }
    true
}

// Whether the counts are within their limits and their buffers, the owners' among them.
#[tactic(auto, unfolding(crate::specs::Checks::counts_good, crate::specs::Checks::counts_good_for))]
pub fn counts_good(table: &Table<'_>, sight: &Sight<'_>) -> bool
    ensures { result ≡ counts_good_for (table_in table.now) (sight_in sight.now) }
{
    table.segment_count <= 16777216
        && 8 * (table.segment_count as usize) <= table.segments.len()
        && table.entry_count <= 1073741824
        && table.entry_count as usize <= table.entries.len()
        && table.height <= 8388608
        && (table.height as usize) < table.row_starts.len()
        && table.segment_count as usize <= sight.owners.len()
}

#[tactic(auto, unfolding(crate::specs::Checks::span_good))]
pub fn span_good(x0: u32, n: u32, l0: usize, l1: usize, l2: usize) -> bool
    ensures { result ≡ span_good x0 n l0 l1 l2 }
{
    let m = n as usize;
    u64::from(x0) + u64::from(n) <= 8388608 && m <= l0 && m <= l1 && m <= l2
}

// Whether the two starts of row y, the entries between them and the owners of their segments are good.
#[tactic(auto, using(crate::proofs::Entries::part_is), unfolding(crate::specs::Checks::entries_good, crate::specs::Checks::row_good_for))]
fn entries_good(table: &Table<'_>, sight: &Sight<'_>, y: u32) -> bool
    requires { (table.now.entry_count ≤ length table.now.entries.now) × (y + 1 < length table.now.row_starts.now) × (table.now.segment_count ≤ length sight.now.owners.now) }
    ensures { result ≡ row_good_for (table_in table.now) (sight_in sight.now) y }
{
    let at = y as usize;
    let b = table.row_starts[at] as usize;
    let e = table.row_starts[at + 1] as usize;
    b <= e && e <= table.entry_count as usize && all_owned(table, sight, &table.entries[b..e])
}

// The checks of a row for a desk, in their order, with the answer of the span's among them.
// `judge_row` of the specs has the bytes between the counts and the row, and others before them: so each call tests desk and bytes where its definition has them.
pub fn judge_row(table: &Table<'_>, sight: &Sight<'_>, y: u32, spanned: bool) -> Result<(), Code>
    ensures { result ≡ judge_row (table_in table.now) (sight_in sight.now) y spanned }
{
    let counted = counts_good(table, sight);
    if !counted {
        return Err(Code::Table);
    }
    if sight.bits.len() < sight.splines as usize {
        return Err(Code::Trace);
    }
    if table.height <= y {
        return Err(Code::Row);
    }
    if !spanned {
        return Err(Code::Span);
    }
    if !entries_good(table, sight, y) {
        return Err(Code::Table);
    }
    Ok(())
}

// The checks of `draw`, in their order.
#[tactic(auto, unfolding(crate::specs::Checks::judge_draw))]
pub fn judge(
    table: &Table<'_>,
    sight: &Sight<'_>,
    y: u32,
    x0: u32,
    n: u32,
    l0: usize,
    l1: usize,
    l2: usize,
) -> Result<(), Code>
    ensures { result ≡ judge_draw (table_in table.now) (sight_in sight.now) y x0 n l0 l1 l2 }
{
    if 2 <= sight.desk {
        return Err(Code::Desk);
    }
    judge_row(table, sight, y, span_good(x0, n, l0, l1, l2))
}
