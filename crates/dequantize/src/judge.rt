// All splines, each dequantized and judged in turn.
ghost use Rattle.std.specs.Prelude.{◌≡◌, ◌+◌, ◌*◌, ◌≤◌, length, take, drop, slice_index_or};
ghost use Rattle.std.specs.Float.{nan};
ghost use Rattle.dequantize.specs.Dequantize.{dequantize_of};
ghost use Rattle.dequantize.specs.Judge.{description_in, Shaped, settle_of, judge_of};

use crate::{Given, Spline};
use codes::{Code, Refusal};
use shape::Description;

// The sum with a spline's estimate, or its refusal: its own, then AREA, then COINCIDE.
#[tactic(auto, unfolding(crate::specs::Judge::settle_of))]
fn settle(total: u64, spline: Result<Spline, Code>, limit: u64) -> Result<u64, Code>
    ensures { result ≡ settle_of total spline limit }
{
    let spline = spline?;
    let more = numbers::saturating_add(total, spline.estimate);
    if more > limit {
        return Err(Code::Area);
    }
    if spline.coincide {
        return Err(Code::Coincide);
    }
    Ok(more)
}

// The spline k of a description, whose double deltas are given.
pub fn spline_at(
    starts: &[f32],
    deltas: &[i32],
    coefficients: &[i32],
    k: usize,
    given: Given,
) -> Result<Spline, Code>
    requires { (2 * k + 2 ≤ length starts.now) × (128 * k + 128 ≤ length coefficients.now) }
    ensures { result ≡ dequantize_of (slice_index_or starts.now (2 * k) nan) (slice_index_or starts.now (2 * k + 1) nan) deltas.now (take 128 (drop (128 * k) coefficients.now)) given }
{
    let from = 128 * k;
    crate::dequantize(
        starts[2 * k],
        starts[2 * k + 1],
        deltas,
        &coefficients[from..from + 128],
        given,
    )
}

// The sum of all estimates, or the first refusal and the number of its spline.
pub fn judge(description: &Description<'_>, given: Given) -> Result<u64, Refusal>
    requires { Shaped (description_in description.now) }
    ensures { result ≡ judge_of (description_in description.now) given }
{
    let mut at = 0;
    let mut total = 0;
    for (k, n) in description.counts.iter().enumerate() {
        let end = at + 2 * *n as usize;
        let deltas = &description.deltas[at..end];
        let spline = spline_at(
            description.starts,
            deltas,
            description.coefficients,
            k,
            given,
        );
        total = settle(total, spline, given.limit).map_err(|code| (code, k))?;
        at = end;
    }
    Ok(total)
}
