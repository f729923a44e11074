// The control points of a spline: a running delta and point, checked at every step.
#![tactic(auto)]

ghost use Rattle.std.specs.Prelude.{◌≡◌, true, ◌+◌, ◌*◌, ◌≤◌, length};
ghost use Rattle.control_points.specs.ControlPoints.{in_range, below_delta_limit, valid_point_pos, valid_double_delta, plus_of, manhattan_of, pair_at, rounded_of, starting_point, moved_of, stand_at, step_of, trace_of};
ghost use Rattle.control_points.specs.Asked.{Fine, Held, Moves};

use codes::Code;
use kinds::Kind;
use std::ops::Add;

// A double delta, a delta or a point, of whole numbers.
#[derive(Clone, Copy, Debug, PartialEq, Eq)]
pub struct Pair {
    pub x: i32,
    pub y: i32,
}

// A control point, and the delta that led to it.
#[derive(Clone, Copy, Debug, PartialEq, Eq)]
pub struct Stand {
    pub delta: Pair,
    pub point: Pair,
}

// A stand that every check let through, with the Manhattan sum so far, and whether two adjacent points were the same.
#[derive(Clone, Copy, Debug, PartialEq, Eq)]
pub struct Run {
    pub delta: Pair,
    pub point: Pair,
    pub manhattan: u64,
    pub coincide: bool,
}

// Whether v is from -2^23 up to but not including 2^23.
fn in_range(v: i32) -> bool
    ensures { result ≡ in_range v }
{
    v >= -8388608 && v < 8388608
}

// Whether v is below 2^30 in magnitude.
fn below_delta_limit(v: i32) -> bool
    ensures { result ≡ below_delta_limit v }
{
    v > -1073741824 && v < 1073741824
}

// A coordinate of a start, made whole, or None beyond the range.
fn rounded(x: f32) -> Option<i32>
    ensures { result ≡ rounded_of x }
{
    match kinds::rounded_to_i32(x) {
        Kind::Exact(z) => in_range(z).then_some(z),
        _ => None,
    }
}

// Where a spline begins, or None where POSITION refuses it.
#[tactic(auto, using(crate::proofs::Starts::taken, crate::proofs::Pairs::in_range_mag), unfolding(crate::specs::ControlPoints::starting_point))]
pub fn starting_point(x: f32, y: f32) -> Option<Pair>
    ensures { result ≡ starting_point x y }
{
    Some(Pair {
        x: rounded(x)?,
        y: rounded(y)?,
    })
}

impl Pair {
    // The pair k of double deltas.
    #[tactic(auto, unfolding(crate::specs::ControlPoints::pair_at))]
    pub fn of(deltas: &[i32], k: usize) -> Pair
        requires { 2 * k + 2 ≤ length deltas.now }
        ensures { result ≡ pair_at deltas.now k }
    {
        Pair {
            x: deltas[2 * k],
            y: deltas[2 * k + 1],
        }
    }

    #[tactic(auto, unfolding(crate::specs::ControlPoints::valid_double_delta))]
    pub fn valid_double_delta(self) -> bool
        ensures { result ≡ valid_double_delta self }
    {
        below_delta_limit(self.x) && below_delta_limit(self.y)
    }

    #[tactic(auto, unfolding(crate::specs::ControlPoints::valid_point_pos))]
    pub fn valid_point_pos(self) -> bool
        ensures { result ≡ valid_point_pos self }
    {
        in_range(self.x) && in_range(self.y)
    }

    #[tactic(auto, unfolding(crate::specs::ControlPoints::manhattan_of))]
    fn manhattan(self) -> u64
        ensures { result ≡ manhattan_of self }
    {
        u64::from(self.x.unsigned_abs()) + u64::from(self.y.unsigned_abs())
    }
}

// Sums that fit.
impl Add for Pair {
    type Output = Pair;

    ghost can_add = { λ p q. Fine p × Fine q };

    ghost add_gives = { λ p q sum. sum ≡ plus_of p q };

    #[tactic(auto, unfolding(crate::specs::ControlPoints::plus_of))]
    fn add(self, o: Pair) -> Pair {
        Pair {
            x: self.x + o.x,
            y: self.y + o.y,
        }
    }
}

impl Stand {
    pub fn at(start: Pair) -> Stand
        ensures { result ≡ stand_at start }
    {
        Stand {
            delta: Pair { x: 0, y: 0 },
            point: start,
        }
    }

    // The next place of a walk that was traced before.
    #[tactic(auto, unfolding(crate::specs::ControlPoints::moved_of))]
    pub fn moved(self, dd: Pair) -> Stand
        requires { Moves self dd }
        ensures { result ≡ moved_of self dd }
    {
        let delta = self.delta + dd;
        let point = self.point + delta;
        Stand { delta, point }
    }
}

impl Run {
    // One double delta. A delta of nothing leaves the point where it is.
    #[tactic(auto, using(crate::proofs::Pairs::point_fine, crate::proofs::Pairs::double_delta_fine, crate::proofs::Coincide::same_next), unfolding(crate::specs::ControlPoints::step_of))]
    fn step(self, dd: Pair, limit: u64) -> Result<Run, Code>
        requires { Held self limit }
        ensures { result ≡ step_of limit self dd }
    {
        if !dd.valid_double_delta() {
            return Err(Code::Delta);
        }
        let delta = self.delta + dd;
        if !delta.valid_point_pos() {
            return Err(Code::Position);
        }
        let more = delta.manhattan();
        if more > limit - self.manhattan {
            return Err(Code::Distance);
        }
        let point = self.point + delta;
        if !point.valid_point_pos() {
            return Err(Code::Position);
        }
        let manhattan = self.manhattan + more;
        Ok(Run {
            delta,
            point,
            manhattan,
            coincide: self.coincide || more == 0,
        })
    }
}

// The run after all double deltas, or the first refusal.
pub fn trace(start: Pair, deltas: &[i32], limit: u64) -> Result<Run, Code>
    requires { valid_point_pos start ≡ true }
    ensures { result ≡ trace_of limit start deltas.now }
{
    let mut run = Run {
        delta: Pair { x: 0, y: 0 },
        point: start,
        manhattan: 0,
        coincide: false,
    };
    for k in 0..deltas.len() / 2 {
        run = run.step(Pair::of(deltas, k), limit)?;
    }
    Ok(run)
}
