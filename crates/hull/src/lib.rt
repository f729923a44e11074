// The reach of a row for a desk: the hull of the columns of an image that drawing the row would touch.
#![tactic(auto)]

ghost use Rattle.std.specs.Prelude.{◌≡◌, cond, [], ◌∷◌, ◌+◌, ◌*◌, ◌^◌, ◌≤◌, length};
ghost use Rattle.std.proofs.Math.Seq.{slice};
ghost use Rattle.segments.specs.Segment.{segment_at};
ghost use Rattle.desks.specs.Desks.{sight_in, hidden_in, shown, Seen};
ghost use Rattle.checks.specs.Tables.{table_in};
ghost use Rattle.checks.specs.Checks.{EntriesFit};
ghost use Rattle.joins.specs.Joins.{joined, columns_below};
ghost use Rattle.hull.specs.Reach.{reach_over, judge_reach_of, tells, reach_of};

use checks::Table;
use codes::{Code, Refusal};
use desks::Sight;
use segments::{Range, Segment};

// What was found, joined with segment i unless it is hidden for the desk.
fn with_shown(found: Range, table: &Table<'_>, sight: &Sight<'_>, i: usize, width: u32) -> Range
    requires { (8 * i + 8 ≤ length table.now.segments.now) × Seen (sight_in sight.now) i }
    ensures { result ≡ cond (hidden_in (sight_in sight.now) i) found (joined found (columns_below width (segment_at table.now.segments.now i))) }
{
    let hides = desks::hidden(sight, i);
    if hides {
        found
    } else {
        joins::with_segment(found, Segment::at(table.segments, i), width)
    }
}

// The reach over the entries from b up to e that are not hidden for the desk.
fn reach_entries(table: &Table<'_>, sight: &Sight<'_>, b: usize, e: usize, width: u32) -> Range
    requires { EntriesFit (table_in table.now) (sight_in sight.now) b e × (width ≤ 2 ^ 23) }
    ensures { result ≡ reach_over table.now.segments.now width (shown (sight_in sight.now) (slice b e table.now.entries.now)) }
{
    let mut found = Range { first: 0, past: 0 };
    for j in b..e {
        let i = table.entries[j] as usize;
        found = with_shown(found, table, sight, i, width);
    }
    found
}

// The checks of `reach`, in their order.
fn judge_reach(table: &Table<'_>, sight: &Sight<'_>, y: u32, width: u32) -> Result<(), Code>
    ensures { result ≡ judge_reach_of (table_in table.now) (sight_in sight.now) y width }
{
    if 2 <= sight.desk {
        return Err(Code::Desk);
    }
    if 8388608 < width {
        return Err(Code::Size);
    }
    checks::judge_row(table, sight, y, true)
}

// The first column and the one past the last that drawing row y for a desk would touch in an image of the width; 0 and 0 where it touches none.
pub fn reach(table: &Table<'_>, sight: &Sight<'_>, y: u32, width: u32) -> Result<Range, Refusal>
    ensures { tells result ≡ reach_of (table_in table.now) (sight_in sight.now) y width }
{
    match judge_reach(table, sight, y, width) {
        Err(code) => Err((code, 0)),
        Ok(()) => {
            let at = y as usize;
            let b = table.row_starts[at] as usize;
            let e = table.row_starts[at + 1] as usize;
            Ok(reach_entries(table, sight, b, e, width))
        }
    }
}
