// A segment added in the columns of a part of a row that it has.
#![tactic(auto)]

ghost use Rattle.std.specs.Prelude.{◌≡◌, ◌+◌, ◌*◌, ◌≤◌, length};
ghost use Rattle.segments.specs.Segment.{segment_at};
ghost use Rattle.segments.specs.Ranges.{has_column};
ghost use Rattle.shade.specs.Edit.{edit, first_cells};
ghost use Rattle.columns.specs.Columns.{shaded_in_column, shaded_in_range, between, count, ChannelsFit};

use segments::{Range, Segment};

mod part;

pub use part::Part;

// Adds a segment to those pixels of a part that lie in a range of columns, and says how many they are.
// The channels stay three parameters, for the reason that `draw/src/lib.rt` gives.
pub fn draw_columns(
    segment: Segment,
    columns: Range,
    part: Part,
    r0: &mut [f32],
    r1: &mut [f32],
    r2: &mut [f32],
    roots: &[u64; 128],
) -> u32
    requires { ChannelsFit part.n r0.old r1.old r2.old }
    ensures value { result ≡ count (between columns.first columns.past) part.x0 part.n }
    ensures r0_after { r0.new ≡ edit (first_cells part.n (shaded_in_range segment columns part.y part.x0 0)) r0.old }
    ensures r1_after { r1.new ≡ edit (first_cells part.n (shaded_in_range segment columns part.y part.x0 1)) r1.old }
    ensures r2_after { r2.new ≡ edit (first_cells part.n (shaded_in_range segment columns part.y part.x0 2)) r2.old }
{
    let from = part.x0.max(columns.first);
    let to = (part.x0 + part.n).min(columns.past);
    if to <= from {
        return 0;
    }
    let a = (from - part.x0) as usize;
    let e = (to - part.x0) as usize;
    let width = to - from;
    blocks::add_segment(
        segment,
        part.y,
        from,
        &mut r0[a..e],
        &mut r1[a..e],
        &mut r2[a..e],
        roots,
    );
    width
}

// Adds segment i to the pixels of a part, where it has their columns, and says to how many.
pub fn draw_segment(
    segments: &[f32],
    i: usize,
    part: Part,
    r0: &mut [f32],
    r1: &mut [f32],
    r2: &mut [f32],
    roots: &[u64; 128],
) -> u32
    requires i_in_bounds { 8 * i + 8 ≤ length segments.now }
    requires fit { ChannelsFit part.n r0.old r1.old r2.old }
    ensures value { result ≡ count (has_column (segment_at segments.now i)) part.x0 part.n }
    ensures r0_after { r0.new ≡ edit (first_cells part.n (λ k v. shaded_in_column 0 segments.now part.y (part.x0 + k) v i)) r0.old }
    ensures r1_after { r1.new ≡ edit (first_cells part.n (λ k v. shaded_in_column 1 segments.now part.y (part.x0 + k) v i)) r1.old }
    ensures r2_after { r2.new ≡ edit (first_cells part.n (λ k v. shaded_in_column 2 segments.now part.y (part.x0 + k) v i)) r2.old }
{
    let segment = Segment::at(segments, i);
    draw_columns(segment, segment.columns(), part, r0, r1, r2, roots)
}
