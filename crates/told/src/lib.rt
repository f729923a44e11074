// What a call tells C: the code's number, which it returns, and five numbers: the place, then the counts, then zeros.
#![tactic(auto)]

ghost use Rattle.std.specs.Prelude.{◌≡◌};
ghost use Rattle.codes.specs.Codes.{number_of};
ghost use Rattle.told.specs.Told.{signed_of, no_counts, one_count, two_counts, read_counts, file_counts, built_counts, reason_of, unmet_of, told_of, told_in};

use build_answer::Built;
use codes::{Code, Refusal};
use profile::Unmet;
use read_list::Read;
use segments::Range;
use trace2::FileRead;

// The counts of a success, with zeros behind those that it has: the last four of C's five cells.
#[derive(Clone, Copy, Debug, PartialEq, Eq)]
pub struct Counts {
    pub first: i64,
    pub second: i64,
    pub third: i64,
    pub fourth: i64,
}

// An outcome in the terms of the table of codes: the code's number, the place and the counts.
// C's function returns the number, so a code is no `Code` here, and the place and the counts are the five cells that C lends.
#[derive(Clone, Copy, Debug, PartialEq, Eq)]
pub struct Told {
    pub number: u32,
    pub place: i64,
    pub counts: Counts,
}

// A success, and what it counts.
pub trait Counted {
    ghost use Rattle.told.specs.declared.Counts.{Counts};

    ghost counted: { Self → Counts };

    fn counts(self) -> Counts
        ensures { result ≡ counted self };
}

// A refusal, and what it tells.
pub trait Reason {
    ghost use Rattle.told.specs.declared.Told.{Told};

    ghost reason: { Self → Told };

    fn why(self) -> Told
        ensures { result ≡ reason self };
}

// ---- counts

// A number as C's int64_t. No slice has 2^63 cells, so no place is cut.
pub fn signed(n: usize) -> i64
    ensures { result ≡ signed_of n }
{
    i64::try_from(n).unwrap_or(i64::MAX)
}

fn one(count: i64) -> Counts
    ensures { result ≡ one_count count }
{
    Counts {
        first: count,
        second: 0,
        third: 0,
        fourth: 0,
    }
}

// A hiding, and a description that meets its profile.
impl Counted for () {
    ghost counted = { λ _. no_counts };

    fn counts(self) -> Counts {
        one(0)
    }
}

// The values or bytes that were written, or the double deltas that were read from a text.
impl Counted for usize {
    ghost counted = { λ n. one_count (signed_of n) };

    fn counts(self) -> Counts {
        one(signed(self))
    }
}

// The updates of a drawing.
impl Counted for u64 {
    ghost counted = { λ n. one_count (signed_of n) };

    fn counts(self) -> Counts {
        one(signed(self as usize))
    }
}

// The entries of another maker's table, or the bands of a summary.
impl Counted for u32 {
    ghost use Rattle.std.specs.Prelude.{pos};

    ghost counted = { λ n. one_count (pos n) };

    fn counts(self) -> Counts {
        one(i64::from(self))
    }
}

// A reach: its first column, and the one past its last.
impl Counted for Range {
    ghost counted = { two_counts };

    fn counts(self) -> Counts {
        Counts {
            first: i64::from(self.first),
            second: i64::from(self.past),
            third: 0,
            fourth: 0,
        }
    }
}

impl Counted for Read {
    ghost counted = { read_counts };

    fn counts(self) -> Counts {
        Counts {
            first: i64::from(self.splines),
            second: i64::from(self.points),
            third: i64::from(self.adjustment),
            fourth: 0,
        }
    }
}

// With the edition as the fourth count.
impl Counted for FileRead {
    ghost counted = { file_counts };

    fn counts(self) -> Counts {
        let read = self.read;
        Counts {
            first: i64::from(read.splines),
            second: i64::from(read.points),
            third: i64::from(read.adjustment),
            fourth: i64::from(self.edition),
        }
    }
}

impl Counted for Built {
    ghost counted = { built_counts };

    fn counts(self) -> Counts {
        Counts {
            first: i64::from(self.segments),
            second: i64::from(self.entries),
            third: signed(self.estimate as usize),
            fourth: i64::from(self.faint),
        }
    }
}

// ---- reasons

fn told_refusal(code: Code, place: usize, count: i64) -> Told
    ensures { result ≡ record { number = number_of code; place = signed_of place; counts = one_count count } }
{
    Told {
        number: u32::from(code),
        place: signed(place),
        counts: one(count),
    }
}

impl Reason for Refusal {
    ghost reason = { reason_of };

    fn why(self) -> Told {
        let (code, place) = self;
        told_refusal(code, place, 0)
    }
}

// A broken rule is PROFILE at its spline, and the rule's number is its first count.
impl Reason for Unmet {
    ghost reason = { unmet_of };

    fn why(self) -> Told {
        match self {
            Unmet::Broken(rule, spline) => {
                told_refusal(Code::Profile, spline, i64::from(u32::from(rule)))
            }
            Unmet::Refused(code, place) => told_refusal(code, place, 0),
        }
    }
}

// Tells C an outcome: fills the five numbers, and returns the code's.
pub fn tell<T: Counted, E: Reason>(answer: &mut [i64; 5], outcome: Result<T, E>) -> u32
    ensures number { result ≡ (told_of T.counted E.reason outcome).number }
    ensures five { answer.new ≡ told_in (told_of T.counted E.reason outcome) }
{
    let told = match outcome {
        Ok(done) => Told {
            number: 0,
            place: 0,
            counts: done.counts(),
        },
        Err(refusal) => refusal.why(),
    };
    let counts = told.counts;
    *answer = [
        told.place,
        counts.first,
        counts.second,
        counts.third,
        counts.fourth,
    ];
    told.number
}
