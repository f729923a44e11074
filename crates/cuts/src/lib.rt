// The columns that a segment has, cut to a part of a row, and the segment added in a range of them.
#![tactic(auto)]

ghost use Rattle.std.specs.Prelude.{◌≡◌, false, cond};
ghost use Rattle.segments.specs.Ranges.{has_column};
ghost use Rattle.shade.specs.Edit.{edit};
ghost use Rattle.cuts.specs.Cuts.{Cuts, InChannels, shaded_in_range_by};

use columns::Part;
use segments::{Range, Segment};

// Those columns of a part that a segment has, unless it is hidden.
pub fn part_of(segment: Segment, hidden: bool, part: Part) -> Range
    ensures { Cuts result (λ x. cond hidden false (has_column segment x)) part.x0 part.n }
{
    let none = Range {
        first: part.x0,
        past: part.x0,
    };
    if hidden {
        return none;
    }
    let columns = segment.columns();
    let first = part.x0.max(columns.first);
    let past = (part.x0 + part.n).min(columns.past);
    if past <= first {
        return none;
    }
    Range { first, past }
}

// Adds a segment to those pixels of three channels that begin at column x0 which lie in a range, by the intensities there.
// The channels stay three parameters, for the reason that `draw/src/lib.rt` gives.
pub fn add_in(
    segment: Segment,
    range: Range,
    locals: &[f32; 32],
    x0: u32,
    r0: &mut [f32],
    r1: &mut [f32],
    r2: &mut [f32],
)
    requires { InChannels range x0 r0.old r1.old r2.old }
    ensures r0_after { r0.new ≡ edit (shaded_in_range_by segment range locals.now x0 0) r0.old }
    ensures r1_after { r1.new ≡ edit (shaded_in_range_by segment range locals.now x0 1) r1.old }
    ensures r2_after { r2.new ≡ edit (shaded_in_range_by segment range locals.now x0 2) r2.old }
{
    let a = (range.first - x0) as usize;
    let e = (range.past - x0) as usize;
    shade::add(segment, locals, &mut r0[a..e], &mut r1[a..e], &mut r2[a..e]);
}
