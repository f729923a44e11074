// Reads the whole value list into lent buffers: each step takes the next value apart or stops with SHORT, and hands on the part of the list that begins after it.
#![tactic(auto)]

ghost use Rattle.std.specs.Prelude.{[], ◌*◌, ◌≤◌, length};
ghost use Rattle.list.specs.List.{after_starts, read_of};
ghost use Rattle.read_steps.specs.Steps.{Rest};
ghost use Rattle.read_list.specs.Rest.{rooms_of, RestLeft, ListLeft};

use codes::{Code, Refusal};
use list::unpack_signed;
use read_splines::read_splines;
use read_steps::read_starts;

// What a list holds: so many splines and points, and the adjustment.
#[derive(Clone, Copy, Debug, PartialEq, Eq)]
pub struct Read {
    pub splines: u32,
    pub points: u32,
    pub adjustment: i32,
}

// The buffers of a description are written, so each is lent by itself: a call that is lent a slice in a field holds the whole struct.

// After the starts: the adjustment, the splines, and nothing else.
fn read_rest(
    list: &[u32],
    total: usize,
    limit: u32,
    s: u32,
    counts: &mut [u32],
    deltas: &mut [i32],
    coefficients: &mut [i32],
) -> Result<Read, Refusal>
    requires { (s ≤ length counts.old) × (128 * s ≤ length coefficients.old) × Rest list.now total }
    ensures { RestLeft (after_starts total limit (length deltas.old) s [] list.now) result counts.old counts.new deltas.old deltas.new coefficients.old coefficients.new }
{
    let [u, rest @ ..] = list else {
        return Err((Code::Short, total));
    };
    let points = read_splines(rest, total, limit, s as usize, counts, deltas, coefficients)?;
    let used = 129 * (s as usize) + 2 * (points as usize);
    if used < rest.len() {
        return Err((Code::Trail, total - (rest.len() - used)));
    }
    Ok(Read {
        splines: s,
        points,
        adjustment: unpack_signed(*u),
    })
}

// The whole list; what a refusal leaves in the buffers is not said here.
pub fn read_list(
    list: &[u32],
    limit: u32,
    counts: &mut [u32],
    starts: &mut [f32],
    deltas: &mut [i32],
    coefficients: &mut [i32],
) -> Result<Read, Refusal>
    ensures { ListLeft (read_of limit (rooms_of counts.old starts.old deltas.old coefficients.old) list.now) result counts.old counts.new starts.old starts.new deltas.old deltas.new coefficients.old coefficients.new }
{
    let total = list.len();
    let [v, rest @ ..] = list else {
        return Err((Code::Short, 0));
    };
    if limit <= *v {
        return Err((Code::Splines, 0));
    }
    let s = *v + 1;
    let n = s as usize;
    if counts.len() < n || starts.len() < 2 * n || coefficients.len() < 128 * n {
        return Err((Code::Room, 0));
    }
    read_starts(rest, total, n, starts)?;
    read_rest(
        &rest[2 * n..],
        total,
        limit,
        s,
        counts,
        deltas,
        coefficients,
    )
}
