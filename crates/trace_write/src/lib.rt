// Writes the trace file of a description into lent bytes, with zeros behind, or says what can't be written and where.
#![tactic(auto)]

ghost use Rattle.std.specs.Prelude.{◌≡◌, List, ◌+◌, ◌<◌, length};
ghost use Rattle.shape.specs.Description.{description_in};
ghost use Rattle.writer.specs.Write.{Check, first_fault, leaves};
ghost use Rattle.write_judge.specs.Verdict.{Fine};
ghost use Rattle.trace.specs.Write.{checks_in, write_trace_in};
ghost use Rattle.trace_write.specs.Steps.{written_by};

use buffers::clear;
use codes::{Code, Refusal};
use shape::Description;
use trace_fit::judge;
use trace_put::{put_header, put_numbers, put_parts};

// Writes a description in a version whose header has the numbers `more` behind its first eight; `found` is what the checks found, but for that of the room.
pub fn write_judged(
    description: &Description<'_>,
    adjustment: i32,
    version: u32,
    more: &[u32],
    found: Result<(), Refusal>,
    bytes: &mut [u8],
) -> Result<usize, Refusal>
    requires { (length more.now < 8) × (found ≡ Fine → first_fault (checks_in (8 + length more.now) (description_in description.now)) ≡ Fine) }
    ensures { (checks : List Check) → found ≡ first_fault checks → leaves result bytes.new
        ≡ written_by checks version more.now (description_in description.now) adjustment (length bytes.old) }
{
    clear(bytes);
    found?;
    let h = 8 + more.len();
    let s = description.counts.len();
    let p = description.deltas.len() / 2;
    let size = 4 * (h + (131 * s + 2 * p));
    if bytes.len() < size {
        return Err((Code::Room, 0));
    }
    put_header(bytes, version, h as u32, s as u32, p as u32, adjustment);
    put_numbers(more, bytes, 8);
    put_parts(description, h, bytes);
    Ok(size)
}

pub fn trace_write(
    description: &Description<'_>,
    adjustment: i32,
    bytes: &mut [u8],
) -> Result<usize, Refusal>
    ensures { leaves result bytes.new
        ≡ write_trace_in (description_in description.now) adjustment (length bytes.old) }
{
    let found = judge(description, 8);
    write_judged(description, adjustment, 1, &[], found, bytes)
}
