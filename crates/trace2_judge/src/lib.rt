// Judges the bytes of a trace file of version 2: the first fault, in the order of the checks, with its place.
// The header has nine numbers, the ninth of which is the edition; what lies behind it `trace_judge` judges as in version 1.
#![tactic(auto)]

ghost use Rattle.std.specs.Prelude.{◌≡◌, [], ◌∷◌, ◌++◌, ◌≤◌, length, get_or};
ghost use Rattle.codes.specs.declared.Code.{Code};
ghost use Rattle.writer.specs.Write.{check, first_fault};
ghost use Rattle.little.specs.Little.{numbers_in};
ghost use Rattle.trace.specs.Read.{offset_checks};
ghost use Rattle.trace_judge.specs.Counted.{Counted};
ghost use Rattle.trace2.specs.Editions.{unknown};
ghost use Rattle.trace2.specs.Read.{laid_checks};
ghost use Rattle.trace2_judge.specs.Steps.{Second};

use codes::{Code, Refusal};
use little::number_at;
use trace_judge::{judge_body, judge_offsets};
use trace2::unknown;

// Whether the edition is none.
fn judge_edition(bytes: &[u8]) -> Result<(), Refusal>
    requires { 36 ≤ length bytes.now }
    ensures { result ≡ first_fault (check (unknown (get_or (numbers_in bytes.now) 8 0)) Code.Edition 32 ∷ []) }
{
    if unknown(number_at(bytes, 8)) {
        return Err((Code::Edition, 32));
    }
    Ok(())
}

// The first wrong number of the header, for s splines and p points: the offsets, then the edition.
fn judge_header(bytes: &[u8], s: usize, p: usize) -> Result<(), Refusal>
    requires { Counted bytes.now 9 s p × (36 ≤ length bytes.now) }
    ensures { result ≡ first_fault (offset_checks 9 (numbers_in bytes.now) ++ (check (unknown (get_or (numbers_in bytes.now) 8 0)) Code.Edition 32 ∷ [])) }
{
    judge_offsets(bytes, 9, s, p)?;
    judge_edition(bytes)
}

// The first fault of a file that says version 2, but for the room: the steps of version 1, with the edition between them.
pub fn judge_second(bytes: &[u8]) -> Result<(), Refusal>
    requires { Second bytes.now }
    ensures { result ≡ first_fault (laid_checks 9 (get_or (numbers_in bytes.now) 8 0) (length bytes.now) (numbers_in bytes.now)) }
{
    if bytes.len() < 36 {
        return Err((Code::Short, bytes.len()));
    }
    let s = number_at(bytes, 1) as usize;
    let p = number_at(bytes, 2) as usize;
    judge_header(bytes, s, p)?;
    judge_body(bytes, 9, s, p)
}
