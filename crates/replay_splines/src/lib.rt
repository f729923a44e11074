// One spline of the port against stored answers: whether the answer to a case's input words is its output words.
#![tactic(auto)]

ghost use Rattle.std.specs.Prelude.{◌≡◌, true, ◌+◌, ◌/◌, ◌≤◌, length};
ghost use Rattle.control_points.specs.ControlPoints.{valid_point_pos, starting_point};
ghost use Rattle.dequantize.specs.Dequantize.{dequantize_of};
ghost use Rattle.stored.specs.Stored.{float_in};
ghost use Rattle.replay_splines.specs.Splines.{IsPoint, LeadsTo, PointsAgree, PointsFrom, RowsAgree, TakenAgrees, DequantizeAgrees, Sized, PathAgrees, CurveAgrees, given_in, deltas_in, coefficients_in};

use codes::Code;
use control_points::Pair;
use dequantize::{Given, Spline};

// ---- the control points

fn is_point(point: Pair, x: u32, y: u32) -> bool
    ensures { result ≡ true → IsPoint point x y }
{
    stored::is_float(to_f32::nearest_i32_to_f32(point.x), x)
        && stored::is_float(to_f32::nearest_i32_to_f32(point.y), y)
}

// Whether the control point that the double deltas lead to is that of two words.
fn leads_to(start: Pair, deltas: &[i32], limit: u64, x: u32, y: u32) -> bool
    requires { valid_point_pos start ≡ true }
    ensures { result ≡ true → LeadsTo limit start deltas.now x y }
{
    match control_points::trace(start, deltas, limit) {
        Err(_) => false,
        Ok(run) => is_point(run.point, x, y),
    }
}

// Whether the control points are those of the words, each had from the double deltas before it.
fn points_agree(start: Pair, deltas: &[i32], limit: u64, points: &[u32]) -> bool
    requires { valid_point_pos start ≡ true }
    ensures { result ≡ true → PointsAgree limit start deltas.now points.now }
{
    for k in 0..points.len() / 2 {
        if deltas.len() / 2 < k {
            return false;
        }
        if !leads_to(
            start,
            &deltas[..2 * k],
            limit,
            points[2 * k],
            points[2 * k + 1],
        ) {
            return false;
        }
    }
    true
}

fn points_agree_from(x: f32, y: f32, deltas: &[i32], limit: u64, points: &[u32]) -> bool
    ensures { result ≡ true → PointsFrom limit (starting_point x y) deltas.now points.now }
{
    match control_points::starting_point(x, y) {
        None => false,
        Some(start) => points_agree(start, deltas, limit, points),
    }
}

// ---- dequantizing

// The four rows, the estimate, and whether two adjacent control points are the same.
fn is_finished(spline: Spline, words: &[u32]) -> bool
    ensures { result ≡ true → RowsAgree spline words.now }
{
    words.len() == 131
        && stored::begin_f32(&spline.x, &words[0..32])
        && stored::begin_f32(&spline.y, &words[32..64])
        && stored::begin_f32(&spline.b, &words[64..96])
        && stored::begin_f32(&spline.sigma, &words[96..128])
        && (words[130] == 1) == spline.coincide
        && stored::is_long(spline.estimate, &words[128..130])
}

// A spline that was taken: its control points, then the rest.
fn is_taken(spline: Spline, x: f32, y: f32, deltas: &[i32], limit: u64, output: &[u32]) -> bool
    ensures { result ≡ true → TakenAgrees limit (starting_point x y) deltas.now spline output.now }
{
    if output.len() < 2 {
        return false;
    }
    let points_end = 2 + 2 * frame::count(output[1]);
    if output.len() != points_end + 131 {
        return false;
    }
    if !points_agree_from(x, y, deltas, limit, &output[2..points_end]) {
        return false;
    }
    is_finished(spline, &output[points_end..])
}

// The code of a refusal, or 0 and what follows it.
fn is_dequantized(
    dequantized: Result<Spline, Code>,
    x: f32,
    y: f32,
    deltas: &[i32],
    limit: u64,
    output: &[u32],
) -> bool
    ensures { result ≡ true → DequantizeAgrees limit (starting_point x y) deltas.now dequantized output.now }
{
    if output.len() < 1 {
        return false;
    }
    match dequantized {
        Ok(spline) => output[0] == 0 && is_taken(spline, x, y, deltas, limit, output),
        Err(code) => output.len() == 1 && stored::refusal_word(u32::from(code)) == output[0],
    }
}

// What all splines share, by the first words.
fn given_of(input: &[u32]) -> Given
    requires { 5 ≤ length input.now }
    ensures { result ≡ given_in input.now }
{
    let limit = stored::long(input[0], input[1]);
    let adjustment = stored::signed_word(input[2]);
    let y_to_x = stored::float(input[3]);
    let y_to_b = stored::float(input[4]);
    Given {
        adjustment,
        y_to_x,
        y_to_b,
        limit,
    }
}

fn is_dequantized_from(input: &[u32], deltas: &[i32], coefficients: &[i32], output: &[u32]) -> bool
    requires { (7 ≤ length input.now) × (128 ≤ length coefficients.now) }
    ensures { result ≡ true → DequantizeAgrees (given_in input.now).limit (starting_point (float_in input.now 5) (float_in input.now 6)) deltas.now (dequantize_of (float_in input.now 5) (float_in input.now 6) deltas.now coefficients.now (given_in input.now)) output.now }
{
    let given = given_of(input);
    let x = stored::float(input[5]);
    let y = stored::float(input[6]);
    let dequantized = dequantize::dequantize(x, y, deltas, coefficients, given);
    is_dequantized(dequantized, x, y, deltas, given.limit, output)
}

pub fn dequantize(input: &[u32], output: &[u32]) -> bool
    ensures { result ≡ true → DequantizeAgrees (given_in input.now).limit (starting_point (float_in input.now 5) (float_in input.now 6)) (deltas_in input.now) (dequantize_of (float_in input.now 5) (float_in input.now 6) (deltas_in input.now) (coefficients_in input.now) (given_in input.now)) output.now }
{
    if input.len() < 8 {
        return false;
    }
    let n = frame::count(input[7]);
    let deltas_end = 8 + 2 * n;
    if input.len() != deltas_end + 128 {
        return false;
    }
    if 32 < n {
        return false;
    }
    let mut deltas = [0i32; 64];
    stored::signeds(&input[8..deltas_end], &mut deltas);
    let mut coefficients = [0i32; 128];
    stored::signeds(&input[deltas_end..], &mut coefficients);
    is_dequantized_from(input, &deltas[..2 * n], &coefficients, output)
}

// ---- the curve

// Number i of the double deltas that lead from control point to control point. Nothing is said of it: `points_agree` looks where they lead.
fn double_delta(points: &[f32], i: usize) -> i32 {
    if points.len() < 2 {
        return 0;
    }
    if points.len() - 2 <= i {
        return 0;
    }
    let delta = points[i + 2] - points[i];
    if i < 2 {
        return kinds::saturating_f32_to_i32(delta);
    }
    kinds::saturating_f32_to_i32(delta - (points[i] - points[i - 2]))
}

fn double_deltas(points: &[f32], out: &mut [i32])
    ensures { Sized out.new (length out.old) }
{
    for i in 0..out.len() {
        out[i] = double_delta(points, i);
    }
}

// Whether the path is that of the words.
fn is_path(start: Pair, deltas: &[i32], output: &[u32]) -> bool
    requires { valid_point_pos start ≡ true }
    ensures { result ≡ true → PathAgrees start deltas.now output.now }
{
    match control_points::trace(start, deltas, 1099511627776) {
        Err(_) => false,
        Ok(_) => {
            let mut path = [0.0f32; 256];
            match curve::curve(start, deltas, &mut path) {
                None => false,
                Some(k) => k == output.len() / 2 && stored::begin_f32(&path, output),
            }
        }
    }
}

fn is_curve_from(start: Pair, deltas: &[i32], points: &[u32], output: &[u32]) -> bool
    requires { (valid_point_pos start ≡ true) × (length points.now / 2 ≡ length deltas.now / 2 + 1) }
    ensures { result ≡ true → CurveAgrees points.now output.now }
{
    if !points_agree(start, deltas, 1099511627776, points) {
        return false;
    }
    is_path(start, deltas, output)
}

fn is_curve(x: f32, y: f32, deltas: &[i32], points: &[u32], output: &[u32]) -> bool
    requires { length points.now / 2 ≡ length deltas.now / 2 + 1 }
    ensures { result ≡ true → CurveAgrees points.now output.now }
{
    match control_points::starting_point(x, y) {
        None => false,
        Some(start) => is_curve_from(start, deltas, points, output),
    }
}

pub fn curve(input: &[u32], output: &[u32]) -> bool
    ensures { result ≡ true → CurveAgrees input.now output.now }
{
    let n = input.len() / 2;
    if n < 1 {
        return false;
    }
    if 32 < n {
        return false;
    }
    let mut points = [0.0f32; 64];
    stored::floats(input, &mut points);
    let mut deltas = [0i32; 64];
    double_deltas(&points, &mut deltas);
    is_curve(points[0], points[1], &deltas[..2 * (n - 1)], input, output)
}
