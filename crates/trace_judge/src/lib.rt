// Judges the bytes of a trace file: the first fault, in the order of the checks, with its place.
// Sizes and offsets are told in 64 bits from counts of 32, so that nothing wraps; s and p are the splines and the points of the header, h is how many numbers it has.
#![tactic(auto)]

ghost use Rattle.std.specs.Prelude.{◌≡◌, not, ◌+◌, ◌*◌, ◌≤◌, eqb, length, get_or};
ghost use Rattle.writer.specs.Write.{first_fault};
ghost use Rattle.little.specs.Little.{numbers_in};
ghost use Rattle.trace.specs.Trace.{version1};
ghost use Rattle.trace.specs.Read.{offset_checks, length_checks, body_checks, read_checks};
ghost use Rattle.trace_judge.specs.Counted.{Counted};

use codes::{Code, Refusal};
use little::number_at;
use trace_parts::judge_parts;

// ---- numbers of the file

// Whether the number of index i is not the one that is due there, which may be too large for any.
fn wrong(bytes: &[u8], i: usize, due: usize) -> bool
    requires { 4 * i + 4 ≤ length bytes.now }
    ensures { result ≡ not (eqb (get_or (numbers_in bytes.now) i 0) due) }
{
    number_at(bytes, i) as usize != due
}

// ---- the checks

// The first wrong offset of the parts.
pub fn judge_offsets(bytes: &[u8], h: usize, s: usize, p: usize) -> Result<(), Refusal>
    requires { Counted bytes.now h s p }
    ensures { result ≡ first_fault (offset_checks h (numbers_in bytes.now)) }
{
    if wrong(bytes, 4, 4 * h) {
        return Err((Code::Header, 16));
    }
    if wrong(bytes, 5, 4 * (h + s)) {
        return Err((Code::Header, 20));
    }
    if wrong(bytes, 6, 4 * (h + 3 * s)) {
        return Err((Code::Header, 24));
    }
    if wrong(bytes, 7, 4 * (h + (3 * s + 2 * p))) {
        return Err((Code::Header, 28));
    }
    Ok(())
}

// Whether a file is too short or too long.
fn judge_length(size: usize, due: usize) -> Result<(), Refusal>
    ensures { result ≡ first_fault (length_checks size due) }
{
    if size < due {
        return Err((Code::Short, size));
    }
    if due < size {
        return Err((Code::Trail, due));
    }
    Ok(())
}

// The first fault behind the header.
pub fn judge_body(bytes: &[u8], h: usize, s: usize, p: usize) -> Result<(), Refusal>
    requires { Counted bytes.now h s p }
    ensures { result ≡ first_fault (body_checks h (length bytes.now) (numbers_in bytes.now)) }
{
    judge_length(bytes.len(), 4 * (h + (131 * s + 2 * p)))?;
    judge_parts(bytes, h, s, p)
}

// The first fault of a file of version 1, but for the room.
pub fn judge(bytes: &[u8]) -> Result<(), Refusal>
    ensures { result ≡ first_fault (read_checks version1 (length bytes.now) (numbers_in bytes.now)) }
{
    if bytes.len() < 32 {
        return Err((Code::Short, bytes.len()));
    }
    if wrong(bytes, 0, 1) {
        return Err((Code::Header, 0));
    }
    let s = number_at(bytes, 1) as usize;
    let p = number_at(bytes, 2) as usize;
    judge_offsets(bytes, 8, s, p)?;
    judge_body(bytes, 8, s, p)
}
