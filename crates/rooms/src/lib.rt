// A list or a trace file that is read in the fixed rooms of the program, lent buffers on the stack, and what is asked of its description.
#![tactic(auto)]

use canvas::{Asked, Task};
use contents::Source;
use read_list::Read;
use shape::Description;
use words::{Failure, Undone};

const SPLINES: usize = 4096;

const STARTS: usize = 8192;

// Two for each of 2^20 points, the most that a list has under the usual limit.
const DELTAS: usize = 2097152;

const COEFFICIENTS: usize = 524288;

// Which of the long rooms was too short for a table. Rooms are lent as arrays: the length of each is then known by its type, and no proof counts its cells.
fn of_short(
    description: &Description<'_>,
    adjustment: i32,
    task: Task<'_>,
    path: &mut [f32; tables::PATH],
    walk: &mut [f32; tables::WALK],
    segments: &mut [f32; tables::SEGMENTS],
    owners: &mut [u64; tables::OWNERS],
) -> Failure {
    shortage::of_room(
        description,
        adjustment,
        task.height,
        task.high,
        path,
        walk,
        segments,
        owners,
    )
}

// The same, in rooms as long.
fn of_room(description: &Description<'_>, adjustment: i32, task: Task<'_>) -> Failure {
    let mut path = [0.0f32; tables::PATH];
    let mut walk = [0.0f32; tables::WALK];
    let mut segments = [0.0f32; tables::SEGMENTS];
    let mut owners = [0u64; tables::OWNERS];
    of_short(
        description,
        adjustment,
        task,
        &mut path,
        &mut walk,
        &mut segments,
        &mut owners,
    )
}

// What is asked of the table of a description, if it meets the edition of the profile that is asked for; or which room was too short for it.
fn build(description: &Description<'_>, adjustment: i32, task: Task<'_>) -> Result<(), Failure> {
    if let Some(edition) = task.profile {
        fineness::judge(description, adjustment, edition)?;
    }
    match tables::build(description, adjustment, task) {
        Ok(()) => Ok(()),
        Err(Undone::Left) => Err(of_room(description, adjustment, task)),
        Err(Undone::Failed(failure)) => Err(failure),
    }
}

// What is asked of a description.
fn answer(
    description: &Description<'_>,
    adjustment: i32,
    source: Source,
    task: Task<'_>,
) -> Result<(), Failure> {
    let to = task.to;
    match task.asked {
        Asked::Contents => contents::say(
            to,
            description.counts,
            description.starts,
            description.deltas.len() / 2,
            adjustment,
            source,
        ),
        Asked::Trace(file) => passing::as_trace(description, adjustment, task.edition, to, file),
        Asked::List(file) => passing::as_list(description, adjustment, to, file),
        Asked::Drawing(file) => drawing::write(
            description,
            adjustment,
            task.width,
            task.height,
            to,
            file,
        ),
        Asked::Profile(edition) => fineness::say(to, description, adjustment, edition),
        _ => build(description, adjustment, task),
    }
}

// The first cells of the buffers are the description of what was read.
fn answer_first(
    buffers: &Description<'_>,
    read: Read,
    source: Source,
    task: Task<'_>,
) -> Result<(), Failure> {
    let description = canvas::first_of(buffers, read.splines, read.points).ok_or(Failure::Refused)?;
    answer(&description, read.adjustment, source, task)
}

// What is asked of a list that is read in lent rooms.
fn list_in(
    list: &[u32],
    task: Task<'_>,
    counts: &mut [u32; SPLINES],
    starts: &mut [f32; STARTS],
    deltas: &mut [i32; DELTAS],
    coefficients: &mut [i32; COEFFICIENTS],
) -> Result<(), Failure> {
    let pixels = canvas::pixels_of(task);
    let limit = list::limit(contents::CONFIGURED, pixels);
    let read = reader::read(
        list,
        contents::CONFIGURED,
        pixels,
        counts,
        starts,
        deltas,
        coefficients,
    )
    .map_err(|refusal| refusals::of_reading(refusal, list, limit))?;
    let buffers = Description {
        counts,
        starts,
        deltas,
        coefficients,
    };
    answer_first(&buffers, read, Source::List(list.len()), task)
}

// What is asked of a list.
pub fn of_list(list: &[u32], task: Task<'_>) -> Result<(), Failure>
    ensures { Unit {0} }
{
    let mut counts = [0u32; SPLINES];
    let mut starts = [0.0f32; STARTS];
    let mut deltas = [0i32; DELTAS];
    let mut coefficients = [0i32; COEFFICIENTS];
    list_in(
        list,
        task,
        &mut counts,
        &mut starts,
        &mut deltas,
        &mut coefficients,
    )
}

// What is asked of a trace file that is read in lent rooms.
fn trace_in(
    bytes: &[u8],
    task: Task<'_>,
    counts: &mut [u32; SPLINES],
    starts: &mut [f32; STARTS],
    deltas: &mut [i32; DELTAS],
    coefficients: &mut [i32; COEFFICIENTS],
) -> Result<(), Failure> {
    let file = trace2_read::trace_read2(bytes, counts, starts, deltas, coefficients).map_err(
        |refusal| refusals::of_trace(refusal, bytes),
    )?;
    let buffers = Description {
        counts,
        starts,
        deltas,
        coefficients,
    };
    let source = Source::File(bytes.len(), file.edition);
    answer_first(&buffers, file.read, source, task)
}

// What is asked of a trace file.
pub fn of_trace(bytes: &[u8], task: Task<'_>) -> Result<(), Failure>
    ensures { Unit {0} }
{
    let mut counts = [0u32; SPLINES];
    let mut starts = [0.0f32; STARTS];
    let mut deltas = [0i32; DELTAS];
    let mut coefficients = [0i32; COEFFICIENTS];
    trace_in(
        bytes,
        task,
        &mut counts,
        &mut starts,
        &mut deltas,
        &mut coefficients,
    )
}
