// What is asked of a built table: its rows, its bands, a picture, the traces that have a pixel, why a segment sits where it does, its row starts and entries, or whether another maker's are they.
#![tactic(auto)]

use build_answer::Built;
use canvas::{Asked, Task};
use checks::Table;
use desks::Sight;
use words::Failure;

// As many as a description of this program has splines.
const TRACES: usize = 4096;

// The picture, the bands or the rows of a table, as far as the sight shows it.
fn show(table: &Table<'_>, sight: &Sight<'_>, task: Task<'_>) -> Result<(), Failure> {
    match task.asked {
        Asked::Picture(file) => canvas::draw(table, sight, file, task),
        Asked::Bands => banding::say(task.to, table, sight, task.width),
        _ => reaching::say(table, sight, task),
    }
}

// The same, with the counts before it, of so many splines of which some are hidden, with a byte for each.
fn show_hidden(
    table: &Table<'_>,
    owners: &[u64],
    bytes: &mut [u8],
    built: Built,
    task: Task<'_>,
) -> Result<(), Failure> {
    hiding::hide_named(task.hide, task.desk, bytes)?;
    canvas::say_built(task.to, built)?;
    let sight = Sight {
        owners,
        splines: bytes.len() as u64,
        bits: bytes,
        desk: task.desk,
    };
    show(table, &sight, task)
}

// What is asked of a table, whose segments have these owners among so many splines.
pub fn perform(
    table: &Table<'_>,
    owners: &[u64],
    splines: usize,
    built: Built,
    task: Task<'_>,
) -> Result<(), Failure>
    ensures { Unit {0} }
{
    let to = task.to;
    match task.asked {
        Asked::Touch(x, y) => {
            touching::say(to, table.segments, owners, table.segment_count, x, y)
        }
        Asked::Why(n) => explaining::say(to, table.segments, owners, table.segment_count, n),
        Asked::Table => listing::say(to, table),
        Asked::Check(named) => listing::check(to, table, named),
        _ => {
            let mut bytes = [0u8; TRACES];
            let bytes = bytes.get_mut(..splines).ok_or(Failure::Refused)?;
            show_hidden(table, owners, bytes, built, task)
        }
    }
}
