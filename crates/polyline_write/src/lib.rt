// Writes the control points of one spline as a points text, with zeros behind, or says why they can't be written.
// The spline is judged by itself: no other spline's points are looked at.
#![tactic(auto)]

ghost use Rattle.std.specs.Prelude.{◌≡◌, ◌+◌, ◌*◌, ◌≤◌, length, get_or, take};
ghost use Rattle.std.specs.Float.{nan};
ghost use Rattle.shape.specs.Shape.{points_of};
ghost use Rattle.writer.specs.Write.{leaves};
ghost use Rattle.control_points.specs.ControlPoints.{starting_point};
ghost use Rattle.polyline.specs.Write.{text_at, write_points_of};
ghost use Rattle.polyline_spline.specs.Steps.{one_verdict, OneLeaves};
ghost use Rattle.polyline_write.specs.Steps.{part_of, Parted};

use buffers::clear;
use codes::{Code, Refusal};
use polyline_spline::write_one;
use shape::{Description, is_shaped};

// Where the double deltas of the spline k begin.
fn deltas_at(counts: &[u32], k: usize, deltas: usize) -> usize
    requires { (k ≤ length counts.now) × (2 * points_of counts.now ≡ deltas) }
    ensures { result ≡ 2 * points_of (take k counts.now) }
{
    let mut at = 0;
    for i in 0..k {
        at += 2 * (counts[i] as usize);
    }
    at
}

// The spline k of a description whose lengths agree.
fn write_spline(description: &Description<'_>, k: usize, text: &mut [u8]) -> Result<usize, Refusal>
    requires { Parted description.now.counts.now description.now.starts.now description.now.deltas.now k }
    ensures { OneLeaves (text_at (part_of description.now.counts.now description.now.deltas.now k) (starting_point (get_or description.now.starts.now (2 * k) nan) (get_or description.now.starts.now (2 * k + 1) nan))) (one_verdict k (part_of description.now.counts.now description.now.deltas.now k) (starting_point (get_or description.now.starts.now (2 * k) nan) (get_or description.now.starts.now (2 * k + 1) nan)) (length text.old)) result text.old text.new }
{
    let from = deltas_at(description.counts, k, description.deltas.len());
    let to = from + 2 * (description.counts[k] as usize);
    let x = description.starts[2 * k];
    let y = description.starts[2 * k + 1];
    write_one(x, y, &description.deltas[from..to], k, text)
}

// How many bytes the points of a spline take, or what refuses it, and where.
pub fn points_write(
    description: &Description<'_>,
    spline: usize,
    text: &mut [u8],
) -> Result<usize, Refusal>
    ensures { leaves result text.new
        ≡ write_points_of description.now.counts.now description.now.starts.now description.now.deltas.now description.now.coefficients.now spline (length text.old) }
{
    clear(text);
    if !is_shaped(description) || description.counts.len() <= spline {
        return Err((Code::Shape, 0));
    }
    let answer = write_spline(description, spline, text);
    if answer.is_err() {
        clear(text);
    }
    answer
}
