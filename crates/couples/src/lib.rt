// Two segments added to a part of a row, one after the other, each in the columns that it has unless it is hidden for the desk.
#![tactic(auto)]

ghost use Rattle.std.specs.Prelude.{◌≡◌, [], ◌∷◌, ◌+◌, ◌*◌, ◌^◌, ◌≤◌, length};
ghost use Rattle.shade.specs.Edit.{edit};
ghost use Rattle.desks.specs.Desks.{sight_in, shown, Seen};
ghost use Rattle.columns.specs.Columns.{shaded_in_range, updates, drawn, ChannelsFit};
ghost use Rattle.cuts.specs.Cuts.{InChannels};

use columns::{Part, draw_columns};
use cuts::{add_in, part_of};
use desks::Sight;
use segments::{Range, Segment};

// Adds two segments, one after the other, each in a range of at most 32 columns. Each pass is made for both before the next, so that neither waits for its own numbers.
// The channels stay three parameters, for the reason that `draw/src/lib.rt` gives.
fn draw_narrow(
    one: Segment,
    p: Range,
    two: Segment,
    q: Range,
    part: Part,
    r0: &mut [f32],
    r1: &mut [f32],
    r2: &mut [f32],
    roots: &[u64; 128],
)
    requires p_in { InChannels p part.x0 r0.old r1.old r2.old }
    requires q_in { InChannels q part.x0 r0.old r1.old r2.old }
    requires in_image { (p.past ≤ 2 ^ 23) × (q.past ≤ 2 ^ 23) }
    ensures r0_after { r0.new ≡ edit (shaded_in_range two q part.y part.x0 0) (edit (shaded_in_range one p part.y part.x0 0) r0.old) }
    ensures r1_after { r1.new ≡ edit (shaded_in_range two q part.y part.x0 1) (edit (shaded_in_range one p part.y part.x0 1) r1.old) }
    ensures r2_after { r2.new ≡ edit (shaded_in_range two q part.y part.x0 2) (edit (shaded_in_range one p part.y part.x0 2) r2.old) }
{
    let m = (p.past - p.first) as usize;
    let l = (q.past - q.first) as usize;
    let mut v = [0.0f32; 32];
    let mut w = [0.0f32; 32];
    blocks::squares_at(one, part.y, p.first, m, &mut v);
    blocks::squares_at(two, part.y, q.first, l, &mut w);
    blocks::roots(&mut v, m, roots);
    blocks::roots(&mut w, l, roots);
    blocks::intensities_at(one, m, &mut v);
    blocks::intensities_at(two, l, &mut w);
    add_in(one, p, &v, part.x0, r0, r1, r2);
    add_in(two, q, &w, part.x0, r0, r1, r2);
}

// Adds segments i and j, in this order, each where it has the columns of the part, unless it is hidden for the desk, and counts the updates.
pub fn draw_two(
    segments: &[f32],
    sight: &Sight<'_>,
    i: usize,
    j: usize,
    part: Part,
    r0: &mut [f32],
    r1: &mut [f32],
    r2: &mut [f32],
    roots: &[u64; 128],
) -> u32
    requires i_in_bounds { 8 * i + 8 ≤ length segments.now }
    requires i_seen { Seen (sight_in sight.now) i }
    requires j_in_bounds { 8 * j + 8 ≤ length segments.now }
    requires j_seen { Seen (sight_in sight.now) j }
    requires fit { ChannelsFit part.n r0.old r1.old r2.old }
    ensures value { result ≡ updates segments.now part.x0 part.n (shown (sight_in sight.now) (i ∷ [])) + updates segments.now part.x0 part.n (shown (sight_in sight.now) (j ∷ [])) }
    ensures r0_after { r0.new ≡ drawn 0 segments.now part (shown (sight_in sight.now) (j ∷ [])) (drawn 0 segments.now part (shown (sight_in sight.now) (i ∷ [])) r0.old) }
    ensures r1_after { r1.new ≡ drawn 1 segments.now part (shown (sight_in sight.now) (j ∷ [])) (drawn 1 segments.now part (shown (sight_in sight.now) (i ∷ [])) r1.old) }
    ensures r2_after { r2.new ≡ drawn 2 segments.now part (shown (sight_in sight.now) (j ∷ [])) (drawn 2 segments.now part (shown (sight_in sight.now) (i ∷ [])) r2.old) }
{
    let one = Segment::at(segments, i);
    let p = part_of(one, desks::hidden(sight, i), part);
    let two = Segment::at(segments, j);
    let q = part_of(two, desks::hidden(sight, j), part);
    let m = p.past - p.first;
    let l = q.past - q.first;
    if 32 < m.max(l) {
        draw_columns(one, p, part, r0, r1, r2, roots);
        draw_columns(two, q, part, r0, r1, r2, roots);
        return m + l;
    }
    draw_narrow(one, p, two, q, part, r0, r1, r2, roots);
    m + l
}
