// The inner layers of a build, each on numbers and slices, exported for the host's comparisons only: the third static library.
// What a layer asks of its caller the export checks, or has in the type of an array; where it does not hold the answer is a code of the scope.
#![tactic(auto)]

ghost use Rattle.std.specs.Prelude.{true, ◌≡◌, leb, length};
ghost use Rattle.dequantize.specs.Coefficients.{inv_adjusted_quant};
ghost use Rattle.control_points.specs.ControlPoints.{starting_point, valid_point_pos};
ghost use Rattle.dequantize.specs.Dequantize.{dequantize_of};
ghost use Rattle.shape.specs.Description.{description_of, description_in};
ghost use Rattle.dequantize.specs.Limits.{spline_area_limit};
ghost use Rattle.walk.specs.Walk.{walk_in, walk_room, walk_length};
ghost use Rattle.transform.specs.Transform.{sums_of};
ghost use Rattle.points.specs.Points.{segment_room, add_segments_from_points, FilledOn};
ghost use Rattle.segments.specs.Segment.{add_segment, segment_at};
ghost use Rattle.segments.specs.Ranges.{rows_of, columns_of};
ghost use Rattle.layers.specs.Exported.{ran_of, ran_leaves, traced_from, given_of, dequantized_leaves, dequantized_export, judged_of, told_judged, judged_leaves, counted_leaves, counted_of, path_leaves, path_from, curved_from, walked_along, WalkLeft, length_leaves, length_from, spline_of_rows, four_of, eight_in, eight_leaves, two_of, counted_segments, filled_along};

use codes::{Code, Refusal};
use control_points::{Pair, Run};
use dequantize::{Given, Spline};
use segments::Segment;
use shape::Description;

// ---- dequantizing

#[unsafe(no_mangle)]
pub extern "C" fn layers_spline_area_limit(level10: bool, area: u64) -> u64
    ensures { result ≡ spline_area_limit level10 area }
{
    dequantize::limits::spline_area_limit(level10, area)
}

#[unsafe(no_mangle)]
pub extern "C" fn layers_inv_adjusted_quant(adjustment: i32) -> f32
    ensures { result ≡ inv_adjusted_quant adjustment }
{
    dequantize::coefficients::inv_adjusted_quant(adjustment)
}

fn traced_from(start_x: f32, start_y: f32, deltas: &[i32], limit: u64) -> Result<Run, Code>
    ensures { result ≡ traced_from limit deltas.now (starting_point start_x start_y) }
{
    let start = control_points::starting_point(start_x, start_y).ok_or(Code::Position)?;
    control_points::trace(start, deltas, limit)
}

// The last control point of a spline and the Manhattan sum, as numbers: those before it are had from fewer double deltas.
#[unsafe(no_mangle)]
pub extern "C" fn layers_trace(
    start_x: f32,
    start_y: f32,
    deltas: &[i32],
    limit: u64,
    x: &mut i32,
    y: &mut i32,
    manhattan: &mut u64,
) -> u32
    ensures { ran_leaves result x.new y.new manhattan.new
        ≡ ran_of (traced_from limit deltas.now (starting_point start_x start_y)) }
{
    match traced_from(start_x, start_y, deltas, limit) {
        Ok(run) => {
            *x = run.point.x;
            *y = run.point.y;
            *manhattan = run.manhattan;
            0
        }
        Err(code) => {
            *x = 0;
            *y = 0;
            *manhattan = 0;
            u32::from(code)
        }
    }
}

// C has a parameter for each number and each row that it is told. One spline: its code's number, four rows of coefficients, the estimate, and whether two adjacent control points are the same.
#[unsafe(no_mangle)]
pub extern "C" fn layers_dequantize(
    start_x: f32,
    start_y: f32,
    deltas: &[i32],
    coefficients: &[i32; 128],
    adjustment: i32,
    y_to_x: f32,
    y_to_b: f32,
    limit: u64,
    x: &mut [f32; 32],
    y: &mut [f32; 32],
    b: &mut [f32; 32],
    sigma: &mut [f32; 32],
    estimate: &mut u64,
    coincide: &mut bool,
) -> u32
    ensures { dequantized_leaves result x.new y.new b.new sigma.new estimate.new coincide.new
        ≡ dequantized_export (dequantize_of start_x start_y deltas.now coefficients.now (given_of adjustment y_to_x y_to_b limit)) }
{
    let given = Given {
        adjustment,
        y_to_x,
        y_to_b,
        limit,
    };
    match dequantize::dequantize(start_x, start_y, deltas, coefficients, given) {
        Ok(spline) => {
            let row_x = spline.x;
            let row_y = spline.y;
            let row_b = spline.b;
            let row_sigma = spline.sigma;
            *x = row_x;
            *y = row_y;
            *b = row_b;
            *sigma = row_sigma;
            *estimate = spline.estimate;
            *coincide = spline.coincide;
            0
        }
        Err(code) => {
            *x = [0.0; 32];
            *y = [0.0; 32];
            *b = [0.0; 32];
            *sigma = [0.0; 32];
            *estimate = 0;
            *coincide = false;
            u32::from(code)
        }
    }
}

// SHAPE comes before any judging.
fn judged_of(description: &Description<'_>, given: Given) -> Result<u64, Refusal>
    ensures { result ≡ judged_of (description_in description.now) given }
{
    if !shape::is_shaped(description) {
        return Err((Code::Shape, 0));
    }
    dequantize::judge::judge(description, given)
}

// All splines of a description, whose slices C lends one by one: the code's number, the place and the summed estimate.
#[unsafe(no_mangle)]
pub extern "C" fn layers_judge(
    counts: &[u32],
    starts: &[f32],
    deltas: &[i32],
    coefficients: &[i32],
    adjustment: i32,
    y_to_x: f32,
    y_to_b: f32,
    limit: u64,
    place: &mut usize,
    estimate: &mut u64,
) -> u32
    ensures { judged_leaves result place.new estimate.new
        ≡ told_judged (judged_of (description_of counts.now starts.now deltas.now coefficients.now) (given_of adjustment y_to_x y_to_b limit)) }
{
    let description = Description {
        counts,
        starts,
        deltas,
        coefficients,
    };
    let given = Given {
        adjustment,
        y_to_x,
        y_to_b,
        limit,
    };
    match judged_of(&description, given) {
        Ok(total) => {
            *place = 0;
            *estimate = total;
            0
        }
        Err((code, k)) => {
            *place = k;
            *estimate = 0;
            u32::from(code)
        }
    }
}

// ---- the curve and the walk

// What a layer that fills a lent buffer answers, as numbers: the code's, and how many records there are.
fn told(counted: Result<usize, Code>, count: &mut usize) -> u32
    ensures { counted_leaves result count.new ≡ counted_of counted }
{
    match counted {
        Ok(n) => {
            *count = n;
            0
        }
        Err(code) => {
            *count = 0;
            u32::from(code)
        }
    }
}

// The path from a start that is in range: the trace of its control points comes first, at no limit to their distance.
fn path_from(start: Pair, deltas: &[i32], path: &mut [f32]) -> Result<usize, Code>
    requires { valid_point_pos start ≡ true }
    ensures { path_leaves (counted_of result) path.new ≡ path_from start deltas.now path.old }
{
    match control_points::trace(start, deltas, 18446744073709551615) {
        Err(code) => Err(code),
        Ok(_) => curve::curve(start, deltas, path).ok_or(Code::Room),
    }
}

fn curved_from(start_x: f32, start_y: f32, deltas: &[i32], path: &mut [f32]) -> Result<usize, Code>
    ensures { path_leaves (counted_of result) path.new ≡ curved_from (starting_point start_x start_y) deltas.now path.old }
{
    let start = control_points::starting_point(start_x, start_y).ok_or(Code::Position)?;
    path_from(start, deltas, path)
}

// The path of a spline: its code's number, and how many points there are.
#[unsafe(no_mangle)]
pub extern "C" fn layers_curve(
    start_x: f32,
    start_y: f32,
    deltas: &[i32],
    path: &mut [f32],
    count: &mut usize,
) -> u32
    ensures { path_leaves (counted_leaves result count.new) path.new ≡ curved_from (starting_point start_x start_y) deltas.now path.old }
{
    told(curved_from(start_x, start_y, deltas, path), count)
}

// A path has one point or more.
fn walked_along(path: &[f32], walk: &mut [f32]) -> Result<usize, Code>
    ensures { (counted_of result ≡ walked_along (leb 2 (length path.now)) (walk_in (walk_room (length walk.old)) path.now))
        × WalkLeft (leb 2 (length path.now)) (walk_in (walk_room (length walk.old)) path.now) walk.old walk.new }
{
    if path.len() < 2 {
        return Err(Code::Shape);
    }
    walk::walk(path, walk).ok_or(Code::Room)
}

// The walk along a path: its code's number, and how many points there are.
#[unsafe(no_mangle)]
pub extern "C" fn layers_walk(path: &[f32], walk: &mut [f32], count: &mut usize) -> u32
    ensures { (counted_leaves result count.new ≡ walked_along (leb 2 (length path.now)) (walk_in (walk_room (length walk.old)) path.now))
        × WalkLeft (leb 2 (length path.now)) (walk_in (walk_room (length walk.old)) path.now) walk.old walk.new }
{
    told(walked_along(path, walk), count)
}

// The length of a walk of n points, by the last one's multiplier, and its code's number: a walk has two points or more, and 2^23 at most.
#[tactic(auto, unfolding(crate::specs::Exported::length_from))]
#[unsafe(no_mangle)]
pub extern "C" fn layers_length_of(n: usize, last: f32, length: &mut f32) -> u32
    ensures { length_leaves result length.new ≡ length_from n last length.old }
{
    if n < 2 || n > 8388608 {
        return u32::from(Code::Shape);
    }
    *length = walk::length_of(n, last);
    0
}

// ---- the transform

// A spline of these rows; its other fields do not enter the sums.
fn spline_of(x: [f32; 32], y: [f32; 32], b: [f32; 32], sigma: [f32; 32]) -> Spline
    ensures { result ≡ spline_of_rows x y b sigma }
{
    Spline {
        x,
        y,
        b,
        sigma,
        estimate: 0,
        coincide: false,
    }
}

// The four sums at t of any four rows of coefficients.
#[unsafe(no_mangle)]
pub extern "C" fn layers_sums_at(
    x: &[f32; 32],
    y: &[f32; 32],
    b: &[f32; 32],
    sigma: &[f32; 32],
    t: f32,
    sums: &mut [f32; 4],
)
    ensures { sums.new ≡ four_of (sums_of (spline_of_rows x.now y.now b.now sigma.now) t) }
{
    let made = transform::sums_at(spline_of(*x, *y, *b, *sigma), t);
    *sums = [made.x, made.y, made.b, made.sigma];
}

// ---- segments

// Whether a point makes a segment, and its eight floats; zeros where it makes none.
#[unsafe(no_mangle)]
pub extern "C" fn layers_add_segment(
    center_x: f32,
    center_y: f32,
    intensity: f32,
    c0: f32,
    c1: f32,
    c2: f32,
    sigma: f32,
    high_precision: bool,
    segment: &mut [f32; 8],
) -> bool
    ensures { eight_leaves result segment.new ≡ eight_in (add_segment center_x center_y intensity c0 c1 c2 sigma high_precision) }
{
    match segments::add_segment(
        center_x,
        center_y,
        intensity,
        c0,
        c1,
        c2,
        sigma,
        high_precision,
    ) {
        Some(made) => {
            *segment = [
                made.center_x,
                made.center_y,
                made.maximum_distance,
                made.inv_sigma,
                made.sigma_over_4_times_intensity,
                made.color0,
                made.color1,
                made.color2,
            ];
            true
        }
        None => {
            *segment = [0.0; 8];
            false
        }
    }
}

// The rows of a segment of eight floats: the first, and one past the last.
#[unsafe(no_mangle)]
pub extern "C" fn layers_rows(segment: &[f32; 8], ends: &mut [u32; 2])
    ensures { ends.new ≡ two_of (rows_of (segment_at segment.now 0)) }
{
    let rows = Segment::at(segment, 0).rows();
    *ends = [rows.first, rows.past];
}

// The columns of a segment of eight floats: the first, and one past the last.
#[unsafe(no_mangle)]
pub extern "C" fn layers_columns(segment: &[f32; 8], ends: &mut [u32; 2])
    ensures { ends.new ≡ two_of (columns_of (segment_at segment.now 0)) }
{
    let columns = Segment::at(segment, 0).columns();
    *ends = [columns.first, columns.past];
}

// ---- the segments of a walk

// No walk has more than 2^23 points.
fn filled_along(
    spline: Spline,
    walk: &[f32],
    walk_length: f32,
    high_precision: bool,
    segments: &mut [f32],
) -> Option<usize>
    ensures { (result ≡ filled_along walk.now (segment_room (length segments.old)) (add_segments_from_points spline walk.now walk_length high_precision))
        × FilledOn result 0 (add_segments_from_points spline walk.now walk_length high_precision) segments.old segments.new }
{
    if walk.len() / 3 > 8388608 {
        return None;
    }
    points::add_segments_from_points(spline, walk, walk_length, high_precision, segments, 0)
}

// The segments of a walk of three numbers a point, for any four rows of coefficients and any length: the code's number, and how many there are.
#[unsafe(no_mangle)]
pub extern "C" fn layers_add_segments_from_points(
    x: &[f32; 32],
    y: &[f32; 32],
    b: &[f32; 32],
    sigma: &[f32; 32],
    walk: &[f32],
    walk_length: f32,
    high_precision: bool,
    segments: &mut [f32],
    count: &mut usize,
) -> u32
    ensures { (counted_leaves result count.new ≡ counted_segments (filled_along walk.now (segment_room (length segments.old)) (add_segments_from_points (spline_of_rows x.now y.now b.now sigma.now) walk.now walk_length high_precision)))
        × FilledOn (filled_along walk.now (segment_room (length segments.old)) (add_segments_from_points (spline_of_rows x.now y.now b.now sigma.now) walk.now walk_length high_precision)) 0 (add_segments_from_points (spline_of_rows x.now y.now b.now sigma.now) walk.now walk_length high_precision) segments.old segments.new }
{
    let spline = spline_of(*x, *y, *b, *sigma);
    let filled = filled_along(spline, walk, walk_length, high_precision, segments);
    told(filled.ok_or(Code::Room), count)
}
