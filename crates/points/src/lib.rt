// The segments of a spline: each point of its walk gets its colours and width, and makes a segment or nothing.
#![tactic(auto)]

ghost use Rattle.std.specs.Prelude.{◌≡◌, ◌+◌, ◌*◌, ◌/◌, ◌≤◌, ◌<◌, length};
ghost use Rattle.points.specs.Points.{curve_time, point_segment, made_of, segment_room, add_segments_from_points, filled_of, FilledOn};

use dequantize::Spline;
use segments::Segment;

// Where in the transform point i lies.
fn place_of(inv_length: f32, i: usize) -> f32
    requires { i ≤ 8388608 }
    ensures { result ≡ curve_time inv_length i }
{
    31.0 * numbers::min((i as f32) * 1.0 * inv_length, 1.0)
}

// What point i of a walk of three numbers a point makes.
fn point_segment(
    spline: Spline,
    inv_length: f32,
    high_precision: bool,
    walk: &[f32],
    i: usize,
) -> Option<Segment>
    requires { (3 * i + 3 ≤ length walk.now) × (i ≤ 8388608) }
    ensures { result ≡ point_segment spline inv_length high_precision walk.now i }
{
    let k = 3 * i;
    let x = walk[k];
    let y = walk[k + 1];
    let multiplier = walk[k + 2];
    let sums = transform::sums_at(spline, place_of(inv_length, i));
    segments::add_segment(
        x,
        y,
        multiplier,
        sums.x,
        sums.y,
        sums.b,
        sums.sigma,
        high_precision,
    )
}

// How many segments a buffer of len numbers has room for. The definition of this name stands in the contracts of crates above.
pub fn segment_room(len: usize) -> usize
    ensures { result ≡ segment_room len }
{
    (len / 8).min(16777216)
}

// What a point makes, written after the first `count` segments: how many there are now, or None, where there is no room.
fn put_made(made: Option<Segment>, out: &mut [f32], count: usize) -> Option<usize>
    requires { count ≤ segment_room (length out.old) }
    ensures { (result ≡ filled_of (segment_room (length out.old)) count (made_of made))
        × FilledOn result count (made_of made) out.old out.new }
{
    let Some(segment) = made else {
        return Some(count);
    };
    if count >= segment_room(out.len()) {
        return None;
    }
    segment.put(out, 8 * count);
    Some(count + 1)
}

// The segments of a walk, written after the first `from` segments: how many there are now, or None, where there is no room for them.
pub fn add_segments_from_points(
    spline: Spline,
    walk: &[f32],
    walk_length: f32,
    high_precision: bool,
    out: &mut [f32],
    from: usize,
) -> Option<usize>
    requires { (length walk.now / 3 ≤ 8388608) × (from ≤ segment_room (length out.old)) }
    ensures { (result ≡ filled_of (segment_room (length out.old)) from (add_segments_from_points spline walk.now walk_length high_precision))
        × FilledOn result from (add_segments_from_points spline walk.now walk_length high_precision) out.old out.new }
{
    let inv_length = 1.0 / walk_length;
    let mut count = from;
    for i in 0..walk.len() / 3 {
        let made = point_segment(spline, inv_length, high_precision, walk, i);
        count = put_made(made, out, count)?;
    }
    Some(count)
}
