// A description passed on in an open file: as a trace file, or as a list of decimal numbers.
#![tactic(auto)]

mod lines;

use shape::Description;
use std::fs::File;
use std::io::{Stdout, Write};
use words::{Failure, out};

// As much as a trace file of 4096 splines and 2^20 points has, of version 2.
const BYTES: usize = 10534948;

// As much as a list of such a description has.
const VALUES: usize = 2633730;

// The usual configured limit, and no limit by pixels.
const CONFIGURED: u32 = 1048576;

const PIXELS: u32 = 4294967295;

// A trace file that goes to a room first, in version 2 with this edition, or in version 1 where there is none. The room is lent as an array: its length is then known by its type, and no proof counts its cells.
fn trace_in(
    description: &Description<'_>,
    adjustment: i32,
    edition: Option<u32>,
    to: Stdout,
    mut file: &File,
    bytes: &mut [u8; BYTES],
) -> Result<(), Failure> {
    let (version, held) = match edition {
        None => (1, 1),
        Some(edition) => (2, edition),
    };
    let n = trace2_write::trace_write2(description, adjustment, version, held, bytes).map_err(
        |refusal| refusals::of_trace(refusal, &[]),
    )?;
    let trace = bytes.get(..n).ok_or(Failure::Refused)?;
    file.write_all(trace).map_err(|why| words::fail(Failure::Refused, b"the trace file", why))?;
    out(to, format_args!("{n} bytes\n"))
}

// `gauge trace out`.
pub fn as_trace(
    description: &Description<'_>,
    adjustment: i32,
    edition: Option<u32>,
    to: Stdout,
    file: &File,
) -> Result<(), Failure>
    ensures { Unit {0} }
{
    let mut bytes = [0u8; BYTES];
    trace_in(description, adjustment, edition, to, file, &mut bytes)
}

// A list that goes to a room first.
fn list_in(
    description: &Description<'_>,
    adjustment: i32,
    to: Stdout,
    file: &File,
    list: &mut [u32; VALUES],
) -> Result<(), Failure> {
    let splines = description.counts.len();
    let n = writer::write(description, adjustment, CONFIGURED, PIXELS, list).map_err(
        |refusal| refusals::of_writing(refusal, splines, CONFIGURED),
    )?;
    let values = list.get(..n).ok_or(Failure::Refused)?;
    lines::write(file, values, description.counts).map_err(|why| words::fail(
        Failure::Refused,
        b"the list",
        why,
    ))?;
    out(to, format_args!("{n} values\n"))
}

// `gauge trace in`.
pub fn as_list(
    description: &Description<'_>,
    adjustment: i32,
    to: Stdout,
    file: &File,
) -> Result<(), Failure>
    ensures { Unit {0} }
{
    let mut list = [0u32; VALUES];
    list_in(description, adjustment, to, file, &mut list)
}
