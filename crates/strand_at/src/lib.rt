// The strand of one spline of a judged description: it is dequantized again from its number, and drawn from its start.
#![tactic(auto)]

ghost use Rattle.std.specs.Prelude.{◌≡◌, ◌+◌, ◌*◌, ◌≤◌, length, get_or, take, drop};
ghost use Rattle.std.specs.Float.{nan};
ghost use Rattle.points.specs.Points.{segment_room};
ghost use Rattle.dequantize.specs.Asked.{SplineAccepted};
ghost use Rattle.strand_at.specs.Strands.{strand_here, Fills};

use dequantize::Given;

// The segments of the spline k, whose double deltas are given.
pub fn draw_one(
    starts: &[f32],
    deltas: &[i32],
    coefficients: &[i32],
    k: usize,
    given: Given,
    high_precision: bool,
    path: &mut [f32],
    walk: &mut [f32],
    out: &mut [f32],
    from: usize,
) -> Option<usize>
    requires { (2 * k + 2 ≤ length starts.now) × (128 * k + 128 ≤ length coefficients.now) × (from ≤ segment_room (length out.old))
        × SplineAccepted (get_or starts.now (2 * k) nan) (get_or starts.now (2 * k + 1) nan) deltas.now (take 128 (drop (128 * k) coefficients.now)) given }
    ensures { Fills from (strand_here starts.now deltas.now coefficients.now k given high_precision (length path.old) (length walk.old)) result out.old out.new }
{
    // The spline was accepted, so it is dequantized again, and its start is a place.
    let spline = dequantize::judge::spline_at(starts, deltas, coefficients, k, given).unwrap();
    let start = control_points::starting_point(starts[2 * k], starts[2 * k + 1]).unwrap();
    strand::draw_spline(start, deltas, spline, high_precision, path, walk, out, from)
}
