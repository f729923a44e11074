// What refuses a description that is to be written: the checks in their order, but for the room.
#![tactic(auto)]

ghost use Rattle.std.specs.Prelude.{◌≡◌, ◌+◌, ◌*◌, ◌%◌, ◌^◌, ◌<◌, ◌||◌, Bool, length, pos, nat_le, slice_index_or, unsigned_abs};
ghost use Rattle.shape.specs.Shape.{points_of};
ghost use Rattle.shape.specs.Description.{description_in};
ghost use Rattle.list.specs.List.{delta_limit, beyond};
ghost use Rattle.write_judge.specs.Judge.{first_fault, unfit, unfit_as, start_checks, delta_checks, spline_checks, checks_of};

use codes::{Code, Refusal};
use shape::{Description, is_shaped};

// Whether a double delta has magnitude 2^30 or more.
pub fn wild_at(deltas: &[i32], i: usize) -> bool
    requires { i < length deltas.now }
    ensures { result ≡ nat_le delta_limit (unsigned_abs (slice_index_or deltas.now i (pos 0))) }
{
    1073741824 <= deltas[i].unsigned_abs()
}

// Whether a pair of double deltas has one.
fn wild_pair(deltas: &[i32], i: usize) -> bool
    requires { i + 1 < length deltas.now }
    ensures { result ≡ beyond delta_limit (slice_index_or deltas.now i (pos 0)) (slice_index_or deltas.now (i + 1) (pos 0)) }
{
    wild_at(deltas, i) || wild_at(deltas, i + 1)
}

// The first fault of pairs of double deltas, of which the first stands at a place.
fn judge_deltas(deltas: &[i32], place: usize) -> Result<(), Refusal>
    requires { (length deltas.now % 2 ≡ 0) × (place + length deltas.now < 2 ^ 63) }
    ensures { result ≡ first_fault (delta_checks place deltas.now) }
{
    for k in 0..deltas.len() / 2 {
        if wild_pair(deltas, 2 * k) {
            return Err((Code::Delta, place + 2 * k));
        }
    }
    Ok(())
}

// The first fault of the splines, whose first point count stands behind the starts and the adjustment.
fn judge_splines(counts: &[u32], deltas: &[i32], limit: u32) -> Result<(), Refusal>
    requires { (length counts.now < 2 ^ 32) × (length deltas.now ≡ 2 * points_of counts.now) }
    ensures { result ≡ first_fault (spline_checks limit 0 (2 * length counts.now + 2) counts.now deltas.now) }
{
    let mut left = limit;
    let mut place = 2 * counts.len() + 2;
    let mut from = 0;
    for (i, &n) in counts.iter().enumerate() {
        if left < n {
            return Err((Code::Points, place));
        }
        let cells = 2 * (n as usize);
        let to = from + cells;
        judge_deltas(&deltas[from..to], place + 1)?;
        left -= n;
        place += cells + 129;
        from = to;
    }
    Ok(())
}

// Whether a number is no start of the list: a whole number that is in range and not minus zero comes back with its bits.
pub fn unfit_start(x: f32) -> bool
    ensures { result ≡ unfit x }
{
    if -8388608.0 < x && x < 8388608.0 {
        let whole = std::num::truncating_f32_to_i64(x);
        let back = whole as f32;
        f32::to_bits(x) != f32::to_bits(back)
    } else {
        true
    }
}

// The first start is not negative either.
fn unfit_as(first: bool, x: f32) -> bool
    ensures { result ≡ unfit_as first x }
{
    unfit_start(x) || (first && x < 0.0)
}

// Whether one of a pair of starts is none.
fn unfit_pair(first: bool, x: f32, y: f32) -> bool
    ensures { result ≡ (unfit_as first x || unfit_as first y) }
{
    unfit_as(first, x) || unfit_as(first, y)
}

// The first fault of the starts, of which the first stands at 1.
fn judge_starts(starts: &[f32]) -> Result<(), Refusal>
    requires { length starts.now % 2 ≡ 0 }
    ensures { result ≡ first_fault (start_checks Bool.true 1 starts.now) }
{
    for k in 0..starts.len() / 2 {
        if unfit_pair(k == 0, starts[2 * k], starts[2 * k + 1]) {
            return Err((Code::Coord, 2 * k + 1));
        }
    }
    Ok(())
}

// The first fault of a description, but for the room.
pub fn judge(description: &Description<'_>, limit: u32) -> Result<(), Refusal>
    ensures { result ≡ first_fault (checks_of (description_in description.now) limit) }
{
    if !is_shaped(description) {
        return Err((Code::Shape, 0));
    }
    let splines = description.counts.len();
    if splines == 0 || (limit as usize) < splines {
        return Err((Code::Splines, 0));
    }
    judge_starts(description.starts)?;
    judge_splines(description.counts, description.deltas, limit)
}
