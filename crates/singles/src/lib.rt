// One segment added to a part of a row, unless it is hidden for the desk.
#![tactic(auto)]

ghost use Rattle.std.specs.Prelude.{◌≡◌, [], ◌∷◌, ◌+◌, ◌*◌, ◌≤◌, length};
ghost use Rattle.desks.specs.Desks.{sight_in, shown, Seen};
ghost use Rattle.columns.specs.Columns.{updates, drawn, ChannelsFit};

use columns::{Part, draw_segment};
use desks::Sight;

// Adds segment i as draw_segment does, unless it is hidden for the desk.
// The channels stay three parameters, for the reason that `draw/src/lib.rt` gives.
pub fn draw_shown(
    segments: &[f32],
    sight: &Sight<'_>,
    i: usize,
    part: Part,
    r0: &mut [f32],
    r1: &mut [f32],
    r2: &mut [f32],
    roots: &[u64; 128],
) -> u32
    requires i_in_bounds { 8 * i + 8 ≤ length segments.now }
    requires i_seen { Seen (sight_in sight.now) i }
    requires fit { ChannelsFit part.n r0.old r1.old r2.old }
    ensures value { result ≡ updates segments.now part.x0 part.n (shown (sight_in sight.now) (i ∷ [])) }
    ensures r0_after { r0.new ≡ drawn 0 segments.now part (shown (sight_in sight.now) (i ∷ [])) r0.old }
    ensures r1_after { r1.new ≡ drawn 1 segments.now part (shown (sight_in sight.now) (i ∷ [])) r1.old }
    ensures r2_after { r2.new ≡ drawn 2 segments.now part (shown (sight_in sight.now) (i ∷ [])) r2.old }
{
    let hides = desks::hidden(sight, i);
    if hides {
        0
    } else {
        draw_segment(segments, i, part, r0, r1, r2, roots)
    }
}
