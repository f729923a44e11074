// Judges the parts of a trace file that lie behind its header: the counts, the starts and the double deltas.
// s and p are the splines and the points of the header, h is how many numbers it has.
#![tactic(auto)]

ghost use Rattle.std.specs.Prelude.{◌≡◌, ℕ, Bool, ◌+◌, ◌*◌, ◌^◌, ◌<◌, eqb, length};
ghost use Rattle.shape.specs.Shape.{points_of};
ghost use Rattle.writer.specs.Write.{first_fault};
ghost use Rattle.little.specs.Little.{numbers_in};
ghost use Rattle.trace.specs.Trace.{numbers_of, number_checks};
ghost use Rattle.trace.specs.Read.{part_checks, misplaced, too_wild};

use codes::{Code, Refusal};
use little::number_at;

// ---- numbers of the file

// Whether a number is no start: neither below 2^23 nor within 2^23 of 2^32.
fn no_start(number: u32) -> bool
    ensures { result ≡ misplaced number }
{
    8388608 <= number && number < 4286578688
}

// Whether a number is no double delta: neither below 2^30 nor within 2^30 of 2^32.
fn no_delta(number: u32) -> bool
    ensures { result ≡ too_wild number }
{
    1073741824 <= number && number <= 3221225472
}

// ---- the checks

// Whether the counts of a part sum to just so many points: the sum itself may be too large to hold, so points are taken away instead.
// `shape` has this loop over a slice of numbers, which the bytes of a file are not: one over both would take an iterator, and be no shorter.
fn sum_is(part: &[u8], points: usize) -> bool
    ensures { result ≡ eqb (points_of (numbers_in part.now)) points }
{
    let mut left = points;
    for i in 0..part.len() / 4 {
        let count = number_at(part, i) as usize;
        if left < count {
            return false;
        }
        left -= count;
    }
    left == 0
}

// The first number of a part that a test refuses, with the code of such numbers; the first of the part is number `from` of the file.
fn judge_numbers<F: Fn(u32) -> bool>(
    part: &[u8],
    from: usize,
    code: Code,
    refuses: F,
) -> Result<(), Refusal>
    requires { (4 * from + length part.now < 2 ^ 63) × F.IsAlwaysCallable refuses }
    ensures { (test : ℕ → Bool) → ((u : ℕ) (r : Bool) → F.post refuses u r → r ≡ test u)
        → result ≡ first_fault (number_checks test code from (numbers_in part.now)) }
{
    for i in 0..part.len() / 4 {
        if refuses(number_at(part, i)) {
            return Err((code, 4 * (from + i)));
        }
    }
    Ok(())
}

// The first fault of the parts of a file that is as long as it should be.
pub fn judge_parts(bytes: &[u8], h: usize, s: usize, p: usize) -> Result<(), Refusal>
    requires { length bytes.now ≡ 4 * numbers_of h s p }
    ensures { result ≡ first_fault (part_checks h s p (numbers_in bytes.now)) }
{
    let starts_from = h + s;
    let deltas_from = h + 3 * s;
    let coefficients_from = h + (3 * s + 2 * p);
    let counts = &bytes[4 * h..4 * starts_from];
    let starts = &bytes[4 * starts_from..4 * deltas_from];
    let deltas = &bytes[4 * deltas_from..4 * coefficients_from];
    if !sum_is(counts, p) {
        return Err((Code::Shape, 0));
    }
    judge_numbers(starts, starts_from, Code::Coord, no_start)?;
    judge_numbers(deltas, deltas_from, Code::Delta, no_delta)
}
