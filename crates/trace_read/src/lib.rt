// Reads a trace file into lent buffers: what it holds, with zeros behind, or a refusal that leaves them zero.
// The bytes are judged as they stand, the buffers are cleared, and only a file with no fault is loaded.
#![tactic(auto)]

ghost use Rattle.std.specs.Prelude.{◌≡◌, List, ◌≤◌, ◌<◌, ◌^◌, length};
ghost use Rattle.reader.specs.Read.{leaves, outcome, rooms_of};
ghost use Rattle.writer.specs.Write.{Check, first_fault};
ghost use Rattle.write_judge.specs.Verdict.{Fine};
ghost use Rattle.little.specs.Little.{numbers_in};
ghost use Rattle.trace.specs.Read.{tight, body_checks, read_trace_of};
ghost use Rattle.trace_read.specs.Steps.{rooms_from, read_by};

use codes::{Code, Refusal};
use little::number_at;
use reader::{Read, wipe};
use trace_judge::judge;
use trace_load::load;

// How many cells each of the four buffers has.
#[derive(Clone, Copy, Debug, PartialEq, Eq)]
pub struct Lengths {
    pub counts: usize,
    pub starts: usize,
    pub deltas: usize,
    pub coefficients: usize,
}

// Whether they lack room for s splines and p points.
pub fn lacks_room(lengths: Lengths, s: usize, p: usize) -> bool
    requires { (s < 2 ^ 32) × (p < 2 ^ 32) }
    ensures { result ≡ tight (rooms_from lengths.counts lengths.starts lengths.deltas lengths.coefficients) s p }
{
    let Lengths {
        counts,
        starts,
        deltas,
        coefficients,
    } = lengths;
    counts < s || starts < 2 * s || coefficients < 128 * s || deltas < 2 * p
}

// Reads a file behind a header of h numbers, of which `found` is what the checks found, but for that of the room.
// The buffers stay a parameter each: a call that is lent one out of a struct holds all of the struct.
pub fn read_judged(
    bytes: &[u8],
    h: usize,
    found: Result<(), Refusal>,
    counts: &mut [u32],
    starts: &mut [f32],
    deltas: &mut [i32],
    coefficients: &mut [i32],
) -> Result<Read, Refusal>
    requires { (8 ≤ h) × (found ≡ Fine → first_fault (body_checks h (length bytes.now) (numbers_in bytes.now)) ≡ Fine) }
    ensures { (checks : List Check) → found ≡ first_fault checks → leaves result counts.new starts.new deltas.new coefficients.new
        ≡ outcome (rooms_of counts.old starts.old deltas.old coefficients.old) (read_by checks h (rooms_of counts.old starts.old deltas.old coefficients.old) bytes.now) }
{
    wipe(counts, starts, deltas, coefficients);
    found?;
    let s = number_at(bytes, 1) as usize;
    let p = number_at(bytes, 2) as usize;
    let lengths = Lengths {
        counts: counts.len(),
        starts: starts.len(),
        deltas: deltas.len(),
        coefficients: coefficients.len(),
    };
    if lacks_room(lengths, s, p) {
        return Err((Code::Room, 0));
    }
    Ok(load(bytes, h, counts, starts, deltas, coefficients))
}

pub fn trace_read(
    bytes: &[u8],
    counts: &mut [u32],
    starts: &mut [f32],
    deltas: &mut [i32],
    coefficients: &mut [i32],
) -> Result<Read, Refusal>
    ensures { leaves result counts.new starts.new deltas.new coefficients.new
        ≡ read_trace_of (rooms_of counts.old starts.old deltas.old coefficients.old) bytes.now }
{
    let found = judge(bytes);
    read_judged(bytes, 8, found, counts, starts, deltas, coefficients)
}
