// One record drawn: its segment is added in the columns that it has, after the checks.
#![tactic(auto)]

ghost use Rattle.std.specs.Prelude.{◌≡◌};
ghost use Rattle.draw.specs.Draw.{three, leaves};
ghost use Rattle.alone.specs.Alone.{without_owner, draw_alone};

use codes::{Code, Refusal};
use columns::{Part, draw_columns};
use flat_records::SegmentRecord;
use segments::Segment;

// Adds the segment of a record to those of the n pixels of row y from column x0 on whose columns it has, and counts them; `known` says that there is such a record.
pub fn draw_alone(
    known: bool,
    whole: SegmentRecord,
    y: u32,
    x0: u32,
    n: u32,
    r0: &mut [f32],
    r1: &mut [f32],
    r2: &mut [f32],
) -> Result<u64, Refusal>
    ensures { leaves result (three r0.new r1.new r2.new)
        ≡ draw_alone known (without_owner whole) y x0 n (three r0.old r1.old r2.old) }
{
    if !known {
        return Err((Code::Table, 0));
    }
    if 8388608 <= y {
        return Err((Code::Row, 0));
    }
    if !checks::span_good(x0, n, r0.len(), r1.len(), r2.len()) {
        return Err((Code::Span, 0));
    }
    let segment = Segment::from(whole);
    let columns = segment.columns();
    let part = Part { y, x0, n };
    let roots = roots::ROOTS;
    Ok(u64::from(draw_columns(segment, columns, part, r0, r1, r2, &roots)))
}
