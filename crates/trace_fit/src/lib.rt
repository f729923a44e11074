// Judges a description that is to be written as a trace file: the first fault, in the order of the checks, with the byte at which the number would stand.
// s and p are the splines and the points, h is how many numbers the header has, and `from` is the number at which a part begins.
#![tactic(auto)]

ghost use Rattle.std.specs.Prelude.{◌≡◌, ◌+◌, ◌*◌, ◌≤◌, ◌<◌, ◌^◌, length};
ghost use Rattle.codes.specs.declared.Code.{Code};
ghost use Rattle.shape.specs.Description.{description_in};
ghost use Rattle.writer.specs.Write.{first_fault};
ghost use Rattle.trace.specs.Trace.{wild, number_checks};
ghost use Rattle.trace.specs.Write.{misfit, header_checks, value_checks, checks_in};

use codes::{Code, Refusal};
use shape::{Description, is_shaped};
use write_judge::{unfit_start, wild_at};

// Whether a number is no start of the file: -2^23 is one here, and else they are the starts of the list.
pub fn no_start(x: f32) -> bool
    ensures { result ≡ misfit x }
{
    x != -8388608.0 && unfit_start(x)
}

// The first count or offset that 32 bits cannot hold: once the counts are below 2^32, no offset wraps.
pub fn judge_header(h: usize, s: usize, p: usize) -> Result<(), Refusal>
    requires { h < 16 }
    ensures { result ≡ first_fault (header_checks h s p) }
{
    if 4294967296 <= s {
        return Err((Code::Header, 4));
    }
    if 4294967296 <= p {
        return Err((Code::Header, 8));
    }
    if 4294967296 <= 4 * (h + s) {
        return Err((Code::Header, 20));
    }
    if 4294967296 <= 4 * (h + 3 * s) {
        return Err((Code::Header, 24));
    }
    if 4294967296 <= 4 * (h + (3 * s + 2 * p)) {
        return Err((Code::Header, 28));
    }
    Ok(())
}

fn judge_starts(starts: &[f32], from: usize) -> Result<(), Refusal>
    requires { from + length starts.now < 2 ^ 60 }
    ensures { result ≡ first_fault (number_checks misfit Code.Coord from starts.now) }
{
    for (i, &x) in starts.iter().enumerate() {
        if no_start(x) {
            return Err((Code::Coord, 4 * (from + i)));
        }
    }
    Ok(())
}

// Its loop is that of the starts. One over both would be generic over the number, with a test that is lent and a law that ties it to `misfit` or `wild`: it would be as long as the two.
fn judge_deltas(deltas: &[i32], from: usize) -> Result<(), Refusal>
    requires { from + length deltas.now < 2 ^ 60 }
    ensures { result ≡ first_fault (number_checks wild Code.Delta from deltas.now) }
{
    for i in 0..deltas.len() {
        if wild_at(deltas, i) {
            return Err((Code::Delta, 4 * (from + i)));
        }
    }
    Ok(())
}

pub fn judge_values(starts: &[f32], deltas: &[i32], h: usize, s: usize) -> Result<(), Refusal>
    requires { (h < 16) × (s < 2 ^ 32) × (length starts.now < 2 ^ 40) × (length deltas.now < 2 ^ 40) }
    ensures { result ≡ first_fault (value_checks h s starts.now deltas.now) }
{
    judge_starts(starts, h + s)?;
    judge_deltas(deltas, h + 3 * s)
}

// The first fault of a description, but for the room.
pub fn judge(description: &Description<'_>, h: usize) -> Result<(), Refusal>
    requires { h < 16 }
    ensures { result ≡ first_fault (checks_in h (description_in description.now)) }
{
    if !is_shaped(description) {
        return Err((Code::Shape, 0));
    }
    let s = description.counts.len();
    let p = description.deltas.len() / 2;
    judge_header(h, s, p)?;
    judge_values(description.starts, description.deltas, h, s)
}
