// Reads the splines of the list: point count, double deltas and coefficients of each.
#![tactic(auto)]

ghost use Rattle.std.specs.Prelude.{◌*◌, ◌≤◌, ◌<◌, length};
ghost use Rattle.list.specs.List.{spline_in, splines_of};
ghost use Rattle.read_steps.specs.Steps.{Rest};
ghost use Rattle.read_splines.specs.Splines.{SplineLeft, SplinesLeft};

use codes::{Code, Refusal};
use read_steps::{read_coefficients, read_deltas};

// One spline: a point count of at most `left`, so many pairs of double deltas, 128 coefficients.
pub fn read_spline(
    list: &[u32],
    total: usize,
    left: u32,
    deltas: &mut [i32],
    coefficients: &mut [i32],
) -> Result<u32, Refusal>
    requires { (128 ≤ length coefficients.old) × Rest list.now total }
    ensures { SplineLeft (spline_in total left (length deltas.old) list.now) result deltas.old deltas.new coefficients.old coefficients.new }
{
    let [n, after @ ..] = list else {
        return Err((Code::Short, total));
    };
    let n = *n;
    if left < n {
        return Err((Code::Points, total - list.len()));
    }
    let cells = 2 * (n as usize);
    if deltas.len() < cells {
        return Err((Code::Room, total - list.len()));
    }
    read_deltas(after, total, n as usize, deltas)?;
    read_coefficients(&after[cells..], total, 128, coefficients)?;
    Ok(n)
}

// All splines; what is left of the limit goes down by each point count.
// The three buffers are written, so each is lent by itself: a call that is lent a slice in a field holds the whole struct.
pub fn read_splines(
    list: &[u32],
    total: usize,
    limit: u32,
    s: usize,
    counts: &mut [u32],
    deltas: &mut [i32],
    coefficients: &mut [i32],
) -> Result<u32, Refusal>
    requires { (s ≤ length counts.old) × (128 * s ≤ length coefficients.old) × Rest list.now total }
    ensures { SplinesLeft (splines_of total limit (length deltas.old) s list.now) result counts.old counts.new deltas.old deltas.new coefficients.old coefficients.new }
{
    let mut rest = list;
    let mut left = limit;
    let mut d = 0;
    for i in 0..s {
        let n = read_spline(
            rest,
            total,
            left,
            &mut deltas[d..],
            &mut coefficients[128 * i..],
        )?;
        counts[i] = n;
        let cells = 2 * (n as usize);
        rest = &rest[cells + 129..];
        left -= n;
        d += cells;
    }
    Ok(limit - left)
}
