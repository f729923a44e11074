// Reads a trace file of either version into lent buffers: what it holds and its edition, with zeros behind, or a refusal that leaves them zero.
// A file that does not say version 2 is left to `trace_read`; the steps here are those of a header of nine numbers, the ninth of which is the edition.
#![tactic(auto)]

ghost use Rattle.std.specs.Prelude.{◌≡◌, get_or};
ghost use Rattle.reader.specs.Read.{leaves, outcome, rooms_of};
ghost use Rattle.little.specs.Little.{numbers_in};
ghost use Rattle.trace2.specs.Read.{read_file, file_leaves, read_file_of};
ghost use Rattle.trace2_judge.specs.Steps.{Second};
ghost use Rattle.trace2_read.specs.Steps.{second};

use codes::Refusal;
use little::number_at;
use reader::Read;
use trace_read::{read_judged, trace_read};
use trace2::FileRead;
use trace2_judge::judge_second;

// ---- the numbers of the header

// Whether a file says version 2.
fn says_second(bytes: &[u8]) -> bool
    ensures { result ≡ second bytes.now }
{
    32 <= bytes.len() && number_at(bytes, 0) == 2
}

// The ninth number of a file, or 0 where there is none.
fn ninth(bytes: &[u8]) -> u32
    ensures { result ≡ get_or (numbers_in bytes.now) 8 0 }
{
    if 36 <= bytes.len() {
        number_at(bytes, 8)
    } else {
        0
    }
}

// ---- the whole file: its buffers stay a parameter each, as in `trace_read`

// A file that says version 2, but for its edition.
fn read_second(
    bytes: &[u8],
    counts: &mut [u32],
    starts: &mut [f32],
    deltas: &mut [i32],
    coefficients: &mut [i32],
) -> Result<Read, Refusal>
    requires { Second bytes.now }
    ensures { leaves result counts.new starts.new deltas.new coefficients.new
        ≡ outcome (rooms_of counts.old starts.old deltas.old coefficients.old) (read_file (rooms_of counts.old starts.old deltas.old coefficients.old) bytes.now) }
{
    let found = judge_second(bytes);
    read_judged(bytes, 9, found, counts, starts, deltas, coefficients)
}

pub fn trace_read2(
    bytes: &[u8],
    counts: &mut [u32],
    starts: &mut [f32],
    deltas: &mut [i32],
    coefficients: &mut [i32],
) -> Result<FileRead, Refusal>
    ensures { file_leaves result counts.new starts.new deltas.new coefficients.new
        ≡ read_file_of (rooms_of counts.old starts.old deltas.old coefficients.old) bytes.now }
{
    if says_second(bytes) {
        let edition = ninth(bytes);
        let read = read_second(bytes, counts, starts, deltas, coefficients)?;
        Ok(FileRead { read, edition })
    } else {
        let read = trace_read(bytes, counts, starts, deltas, coefficients)?;
        Ok(FileRead { read, edition: 1 })
    }
}
