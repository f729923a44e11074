// The rows of a built table in words.
#![tactic(auto)]

use canvas::Task;
use checks::Table;
use desks::Sight;
use words::Failure;

// One row, where it shows any entry.
fn reach_row(table: &Table<'_>, sight: &Sight<'_>, task: Task<'_>, y: u32) -> Result<(), Failure> {
    let shown = canvas::shown_of(table, sight, y);
    if shown == 0 {
        return Ok(());
    }
    let Ok(reach) = hull::reach(table, sight, y, task.width) else {
        return Ok(());
    };
    let first = reach.first;
    let past = reach.past;
    words::out(
        task.to,
        format_args!("row {y}: {shown} entries, columns from {first} up to {past}\n"),
    )
}

// `gauge rows`: each row that shows entries, and its reach.
pub fn say(table: &Table<'_>, sight: &Sight<'_>, task: Task<'_>) -> Result<(), Failure>
    ensures { Unit {0} }
{
    for y in 0..task.height {
        reach_row(table, sight, task, y)?;
    }
    Ok(())
}
