// Writes one spline as a points text: judged as building does, but for its length and area, then put where there is room.
#![tactic(auto)]

ghost use Rattle.std.specs.Prelude.{◌≡◌, Bool, ◌∷◌, ◌+◌, ◌≤◌, ◌<◌, length};
ghost use Rattle.std.proofs.lemmas.List.Edits.{sets};
ghost use Rattle.control_points.specs.ControlPoints.{valid_point_pos, starting_point, later_points, control_points, stand_at};
ghost use Rattle.control_points.specs.Asked.{Passable};
ghost use Rattle.polyline.specs.Write.{pair_text, later_text, points_text, gone_by, gone_of, text_at};
ghost use Rattle.polyline_spline.specs.Steps.{Placed, begun_at, PutLeaves, one_verdict, OneLeaves};

use codes::{Code, Refusal};
use control_points::{Pair, Stand, starting_point};
use decimal::{put, put_number};

// ---- the checks

// One double delta on: DELTA, POSITION of the delta, POSITION of the point. Points that meet are no reason to stop before all points.
#[tactic(auto, unfolding(control_points::specs::ControlPoints::moved_of, polyline::specs::Write::gone_by))]
fn go_on(place: Stand, met: bool, dd: Pair) -> Result<(Stand, bool), Code>
    requires { Placed place }
    ensures { result ≡ gone_by place met dd }
{
    if !dd.valid_double_delta() {
        return Err(Code::Delta);
    }
    let delta = place.delta + dd;
    if !delta.valid_point_pos() {
        return Err(Code::Position);
    }
    let point = place.point + delta;
    if !point.valid_point_pos() {
        return Err(Code::Position);
    }
    Ok((Stand { delta, point }, met || place.point == point))
}

// All double deltas.
fn go_along(start: Pair, deltas: &[i32]) -> Result<(Stand, bool), Code>
    requires { valid_point_pos start ≡ Bool.true }
    ensures { result ≡ gone_of start deltas.now }
{
    let mut place = Stand::at(start);
    let mut met = false;
    for k in 0..deltas.len() / 2 {
        (place, met) = go_on(place, met, Pair::of(deltas, k))?;
    }
    Ok((place, met))
}

// The start, the points, then COINCIDE: where the spline begins.
fn begin_at(x: f32, y: f32, deltas: &[i32]) -> Result<Pair, Code>
    ensures { result ≡ begun_at deltas.now (starting_point x y) }
{
    let start = starting_point(x, y).ok_or(Code::Position)?;
    let (_, met) = go_along(start, deltas)?;
    if met {
        return Err(Code::Coincide);
    }
    Ok(start)
}

// ---- the text

#[tactic(auto, unfolding(polyline::specs::Write::pair_text))]
fn put_pair(text: &mut [u8], at: usize, p: Pair) -> usize
    requires { (at < 18446743900000000000) × (valid_point_pos p ≡ Bool.true) }
    ensures { (text.new ≡ sets text.old at (pair_text p)) × (result ≡ at + length (pair_text p)) × (result ≤ at + 17) }
{
    let comma = put_number(text, at, p.x);
    put(text, comma, b',');
    put_number(text, comma + 1, p.y)
}

// A space and a further pair.
fn put_later(text: &mut [u8], at: usize, p: Pair) -> usize
    requires { (at < 18446743800000000000) × (valid_point_pos p ≡ Bool.true) }
    ensures { (text.new ≡ sets text.old at (32 ∷ pair_text p)) × (result ≡ at + length (32 ∷ pair_text p)) × (result ≤ at + 18) }
{
    put(text, at, b' ');
    put_pair(text, at + 1, p)
}

// The points behind a place: where they end, if there is room for them.
fn put_rest(from: Stand, deltas: &[i32], text: &mut [u8], begin: usize) -> Option<usize>
    requires { Passable from deltas.now × (begin ≤ 17) }
    ensures { PutLeaves begin (later_text (later_points from deltas.now)) result text.old text.new }
{
    let mut place = from;
    let mut at = begin;
    for k in 0..deltas.len() / 2 {
        if text.len() < at {
            return None;
        }
        place = place.moved(Pair::of(deltas, k));
        at = put_later(text, at, place.point);
    }
    if text.len() < at {
        return None;
    }
    Some(at)
}

fn put_points(start: Pair, deltas: &[i32], text: &mut [u8]) -> Option<usize>
    requires { Passable (stand_at start) deltas.now }
    ensures { PutLeaves 0 (points_text (control_points start deltas.now)) result text.old text.new }
{
    let at = put_pair(text, 0, start);
    put_rest(Stand::at(start), deltas, text, at)
}

// ---- both

// The spline k by its double deltas: judged, then put.
pub fn write_one(
    x: f32,
    y: f32,
    deltas: &[i32],
    k: usize,
    text: &mut [u8],
) -> Result<usize, Refusal>
    ensures { OneLeaves (text_at deltas.now (starting_point x y)) (one_verdict k deltas.now (starting_point x y) (length text.old)) result text.old text.new }
{
    let start = begin_at(x, y, deltas).map_err(|code| (code, k))?;
    put_points(start, deltas, text).ok_or((Code::Room, k))
}
