// From a spline to its segments: its path, its walk, and what each point of the walk makes, in lent buffers.
#![tactic(auto)]

ghost use Rattle.std.specs.Prelude.{◌≡◌, ◌*◌, ◌/◌, ◌≤◌, length};
ghost use Rattle.points.specs.Points.{segment_room, filled_of, FilledOn};
ghost use Rattle.control_points.specs.ControlPoints.{stand_at};
ghost use Rattle.control_points.specs.Asked.{Passable};
ghost use Rattle.curve.specs.Curve.{path_room};
ghost use Rattle.walk.specs.Walk.{walk_in, walk_room};
ghost use Rattle.strand.specs.Strand.{flat_segments, after_walk, strand_of, strand_filled, segments_of};

use control_points::Pair;
use dequantize::Spline;

// The segments of a walk of three numbers a point. A length of 0 or less leaves none.
fn draw_walk(
    walk: &[f32],
    spline: Spline,
    high_precision: bool,
    out: &mut [f32],
    from: usize,
) -> Option<usize>
    requires { (2 ≤ length walk.now / 3) × (length walk.now / 3 ≤ 8388608) × (from ≤ segment_room (length out.old)) }
    ensures { (result ≡ filled_of (segment_room (length out.old)) from (flat_segments spline high_precision walk.now))
        × FilledOn result from (flat_segments spline high_precision walk.now) out.old out.new }
{
    let n = walk.len() / 3;
    let last = walk[3 * n - 1];
    let walk_length = walk::length_of(n, last);
    if walk_length <= 0.0 {
        return Some(from);
    }
    points::add_segments_from_points(spline, walk, walk_length, high_precision, out, from)
}

// The segments of a path of two numbers a point.
fn draw_path(
    path: &[f32],
    spline: Spline,
    high_precision: bool,
    walk: &mut [f32],
    out: &mut [f32],
    from: usize,
) -> Option<usize>
    requires { (2 ≤ length path.now) × (from ≤ segment_room (length out.old)) }
    ensures { (result ≡ strand_filled (segment_room (length out.old)) from (after_walk spline high_precision (walk_in (walk_room (length walk.old)) path.now)))
        × FilledOn result from (segments_of (after_walk spline high_precision (walk_in (walk_room (length walk.old)) path.now))) out.old out.new }
{
    let n = walk::walk(path, walk)?;
    draw_walk(&walk[..3 * n], spline, high_precision, out, from)
}

// The segments of a spline that was judged before, after the first `from` segments: how many there are now, or None, where there is no room.
pub fn draw_spline(
    start: Pair,
    deltas: &[i32],
    spline: Spline,
    high_precision: bool,
    path: &mut [f32],
    walk: &mut [f32],
    out: &mut [f32],
    from: usize,
) -> Option<usize>
    requires { Passable (stand_at start) deltas.now × (from ≤ segment_room (length out.old)) }
    ensures { (result ≡ strand_filled (segment_room (length out.old)) from (strand_of (path_room (length path.old)) (walk_room (length walk.old)) start deltas.now spline high_precision))
        × FilledOn result from (segments_of (strand_of (path_room (length path.old)) (walk_room (length walk.old)) start deltas.now spline high_precision)) out.old out.new }
{
    let n = curve::curve(start, deltas, path)?;
    draw_path(&path[..2 * n], spline, high_precision, walk, out, from)
}
