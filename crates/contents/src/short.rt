// A list or a trace file in rooms that are soon cleared and fit a small stack; a description that is too long for them is left to others.
use crate::{Source, telling};
use codes::Code;
use read_list::Read;
use std::io::Stdout;
use words::{Failure, Undone};

const SPLINES: usize = 512;

const STARTS: usize = 1024;

const DELTAS: usize = 32768;

const COEFFICIENTS: usize = 65536;

// The first cells of the buffers are those of what was read.
fn say_first(
    to: Stdout,
    counts: &[u32],
    starts: &[f32],
    read: Read,
    source: Source,
) -> Result<(), Failure> {
    let s = read.splines as usize;
    telling::say(
        to,
        counts.get(..s).ok_or(Failure::Refused)?,
        starts.get(..2 * s).ok_or(Failure::Refused)?,
        read.points as usize,
        read.adjustment,
        source,
    )
}

// A list that is read in lent rooms. It has no image. Each room is a parameter of its own: over a struct of `&mut` slices the proof did not close (`draw`).
fn list_in(
    to: Stdout,
    list: &[u32],
    counts: &mut [u32; SPLINES],
    starts: &mut [f32; STARTS],
    deltas: &mut [i32; DELTAS],
    coefficients: &mut [i32; COEFFICIENTS],
) -> Result<(), Undone> {
    let limit = crate::CONFIGURED;
    match reader::read(list, limit, u32::MAX, counts, starts, deltas, coefficients) {
        Ok(read) => Ok(say_first(to, counts, starts, read, Source::List(list.len()))?),
        Err((Code::Room, _)) => Err(Undone::Left),
        Err(refusal) => Err(refusals::of_reading(refusal, list, limit).into()),
    }
}

// What a list holds.
pub fn tell_list(to: Stdout, list: &[u32]) -> Result<(), Undone>
    ensures { Unit {0} }
{
    let mut counts = [0u32; SPLINES];
    let mut starts = [0.0f32; STARTS];
    let mut deltas = [0i32; DELTAS];
    let mut coefficients = [0i32; COEFFICIENTS];
    list_in(
        to,
        list,
        &mut counts,
        &mut starts,
        &mut deltas,
        &mut coefficients,
    )
}

// A trace file that is read in lent rooms, which are as many parameters as those of `list_in`.
fn trace_in(
    to: Stdout,
    bytes: &[u8],
    counts: &mut [u32; SPLINES],
    starts: &mut [f32; STARTS],
    deltas: &mut [i32; DELTAS],
    coefficients: &mut [i32; COEFFICIENTS],
) -> Result<(), Undone> {
    match trace2_read::trace_read2(bytes, counts, starts, deltas, coefficients) {
        Ok(file) => {
            let source = Source::File(bytes.len(), file.edition);
            Ok(say_first(to, counts, starts, file.read, source)?)
        }
        Err((Code::Room, _)) => Err(Undone::Left),
        Err(refusal) => Err(refusals::of_trace(refusal, bytes).into()),
    }
}

// What a trace file holds.
pub fn tell_trace(to: Stdout, bytes: &[u8]) -> Result<(), Undone>
    ensures { Unit {0} }
{
    let mut counts = [0u32; SPLINES];
    let mut starts = [0.0f32; STARTS];
    let mut deltas = [0i32; DELTAS];
    let mut coefficients = [0i32; COEFFICIENTS];
    trace_in(
        to,
        bytes,
        &mut counts,
        &mut starts,
        &mut deltas,
        &mut coefficients,
    )
}
