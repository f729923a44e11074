// Ranges of columns joined: the least range that holds what was found and a segment's columns below a width.
#![tactic(auto)]

ghost use Rattle.std.specs.Prelude.{◌≡◌, ◌<◌, min, max};
ghost use Rattle.joins.specs.Joins.{joined, columns_below};

use segments::{Range, Segment};

// The least range that holds what was found and the columns from `first` up to `past`.
fn join(found: Range, first: u32, past: u32) -> Range
    requires { first < past }
    ensures { result ≡ joined found (record { first = first; past = past }) }
{
    if found.past <= found.first {
        return Range { first, past };
    }
    Range {
        first: found.first.min(first),
        past: found.past.max(past),
    }
}

// The least range that holds what was found and the segment's columns below the width; a segment without such columns is skipped.
pub fn with_segment(found: Range, segment: Segment, width: u32) -> Range
    ensures { result ≡ joined found (columns_below width segment) }
{
    let columns = segment.columns();
    let first = columns.first;
    let past = width.min(columns.past);
    if past <= first {
        return found;
    }
    join(found, first, past)
}
