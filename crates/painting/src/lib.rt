// All splines of a judged description, each drawn in turn: their segments in a lent buffer and their owners in another, or the first without room.
#![tactic(auto)]

ghost use Rattle.std.specs.Prelude.{◌≡◌, ◌≤◌, length};
ghost use Rattle.points.specs.Points.{segment_room};
ghost use Rattle.owners.specs.Owners.{owned_room};
ghost use Rattle.curve.specs.Curve.{path_room};
ghost use Rattle.walk.specs.Walk.{walk_room};
ghost use Rattle.dequantize.specs.Judge.{description_in, Shaped};
ghost use Rattle.painting.specs.Painting.{Passed, paint_of, drawn_of, DrawnOn};

use dequantize::Given;
use shape::Description;
use strand_at::draw_one;

// The four buffers are written, so each is lent by itself: a call that is lent a slice in a field holds the whole struct.

// The segments of all splines of a description that was judged before, where each segment that has room has a cell for its owner too.
fn draw_each(
    description: &Description<'_>,
    given: Given,
    high_precision: bool,
    path: &mut [f32],
    walk: &mut [f32],
    out: &mut [f32],
    owners: &mut [u64],
) -> Result<usize, usize>
    requires { Shaped (description_in description.now) × Passed (description_in description.now) given × (segment_room (length out.old) ≤ length owners.old) }
    ensures { (result ≡ drawn_of (paint_of (description_in description.now) given high_precision (path_room (length path.old)) (walk_room (length walk.old)) (segment_room (length out.old))))
        × DrawnOn (paint_of (description_in description.now) given high_precision (path_room (length path.old)) (walk_room (length walk.old)) (segment_room (length out.old))) (segment_room (length out.old)) out.old out.new owners.old owners.new }
{
    let mut at = 0;
    let mut count = 0;
    for (k, n) in description.counts.iter().enumerate() {
        let end = at + 2 * *n as usize;
        let deltas = &description.deltas[at..end];
        let drawn = draw_one(
            description.starts,
            deltas,
            description.coefficients,
            k,
            given,
            high_precision,
            path,
            walk,
            out,
            count,
        );
        let Some(more) = drawn else {
            return Err(k);
        };
        owners::fill(owners, count, more, k);
        count = more;
        at = end;
    }
    Ok(count)
}

// The segments of all splines of a description that was judged before, and the number of the spline of each: how many segments there are, or the
// number of the first spline without room. A segment needs its record and its owner's cell.
pub fn draw_all(
    description: &Description<'_>,
    given: Given,
    high_precision: bool,
    path: &mut [f32],
    walk: &mut [f32],
    out: &mut [f32],
    owners: &mut [u64],
) -> Result<usize, usize>
    requires { Shaped (description_in description.now) × Passed (description_in description.now) given }
    ensures { (result ≡ drawn_of (paint_of (description_in description.now) given high_precision (path_room (length path.old)) (walk_room (length walk.old)) (owned_room (length out.old) (length owners.old))))
        × DrawnOn (paint_of (description_in description.now) given high_precision (path_room (length path.old)) (walk_room (length walk.old)) (owned_room (length out.old) (length owners.old))) (owned_room (length out.old) (length owners.old)) out.old out.new owners.old owners.new }
{
    let end = 8 * owners::room(out.len(), owners.len());
    draw_each(
        description,
        given,
        high_precision,
        path,
        walk,
        &mut out[..end],
        owners,
    )
}
