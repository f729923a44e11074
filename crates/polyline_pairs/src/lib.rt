// One pair of a points text: the numbers that its bytes make, and the judgement on it behind the pairs before it.
#![tactic(auto)]

ghost use Rattle.std.specs.Prelude.{◌≡◌, ◌+◌, ◌-◌, ◌*◌, ◌≤◌, Some};
ghost use Rattle.polyline.specs.Spots.{signed_by, figure_at, grown_by, spot_of, capped};
ghost use Rattle.polyline.specs.Read.{minus_of, double_delta, judged_of};
ghost use Rattle.polyline_pairs.specs.Fits.{Near, Held, OnTrack};

use codes::Code;
use control_points::{Pair, Stand};
use polyline::{Figure, Spot, Track};

// ---- numbers

fn minus(p: Pair, q: Pair) -> Pair
    requires { Near p × Near q }
    ensures { result ≡ minus_of p q }
{
    Pair {
        x: p.x - q.x,
        y: p.y - q.y,
    }
}

fn signed(negative: bool, size: u32) -> i32
    requires { size ≤ 16777216 }
    ensures { result ≡ signed_by negative size }
{
    let plain = size as i32;
    if negative { -plain } else { plain }
}

// A size with a digit more. Above 2^24 all sizes are one: none is a position.
fn size_with(size: u32, b: u8) -> u32
    requires { size ≤ 16777216 }
    ensures { result ≡ capped (10 * size + (b - 48)) }
{
    let more = 10 * size + u32::from(b.saturating_sub(b'0'));
    more.min(16777216)
}

// ---- a pair

pub fn figure_at(begin: usize) -> Figure
    ensures { result ≡ figure_at begin }
{
    Figure {
        begin,
        x: 0,
        negative: false,
        size: 0,
    }
}

// A byte inside a pair.
#[tactic(auto, unfolding(polyline::specs::Spots::grown_by))]
pub fn grown(f: Figure, b: u8) -> Figure
    requires { Held f }
    ensures { result ≡ grown_by capped f b }
{
    match b {
        b',' => Figure {
            x: signed(f.negative, f.size),
            negative: false,
            size: 0,
            ..f
        },
        b'-' => Figure {
            negative: true,
            ..f
        },
        _ => Figure {
            size: size_with(f.size, b),
            ..f
        },
    }
}

#[tactic(auto, unfolding(polyline::specs::Spots::spot_of))]
pub fn spot(f: Figure) -> Spot
    requires { Held f }
    ensures { result ≡ spot_of f }
{
    Spot {
        begin: f.begin,
        point: Pair {
            x: f.x,
            y: signed(f.negative, f.size),
        },
    }
}

// A pair behind a place: POSITION of the delta and of the point, then COINCIDE.
#[tactic(auto, using(crate::proofs::Numbers::valid_near, crate::proofs::Numbers::same_is), unfolding(polyline::specs::Read::judged_of, polyline::specs::Read::placeable, polyline::specs::Read::meets, polyline::specs::Read::track_to))]
fn judge_later(track: Track, q: Pair) -> Result<Track, Code>
    requires { OnTrack (Some track) × Near q }
    ensures { result ≡ judged_of (Some track) q }
{
    let point = track.place.point;
    let delta = minus(q, point);
    if !delta.valid_point_pos() || !q.valid_point_pos() {
        return Err(Code::Position);
    }
    if point == q {
        return Err(Code::Coincide);
    }
    Ok(Track {
        place: Stand { delta, point: q },
        start: track.start,
    })
}

#[tactic(auto, unfolding(polyline::specs::Read::judged_of, polyline::specs::Read::placeable, polyline::specs::Read::meets, polyline::specs::Read::track_to))]
pub fn judge_pair(track: Option<Track>, q: Pair) -> Result<Track, Code>
    requires { OnTrack track × Near q }
    ensures { result ≡ judged_of track q }
{
    match track {
        Some(track) => judge_later(track, q),
        None => if q.valid_point_pos() {
            Ok(Track {
                place: Stand::at(q),
                start: q,
            })
        } else {
            Err(Code::Position)
        },
    }
}

// The double delta that leads from a place to a pair.
#[tactic(auto, unfolding(polyline::specs::Read::double_delta))]
pub fn double_delta(p: Stand, q: Pair) -> Pair
    requires { Near q × Near p.point × Near (minus_of q p.point) × Near p.delta }
    ensures { result ≡ double_delta p q }
{
    minus(minus(q, p.point), p.delta)
}
