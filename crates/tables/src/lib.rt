// The table of a description, built in fixed rooms, and what is asked of it.
#![tactic(auto)]

use canvas::Task;
use checks::Table;
use codes::Code;
use shape::Description;
use table::Setting;
use words::Undone;

// Rooms that are soon cleared and hold most tables: of 8192 points of a path and 16384 of a walk, for 49152 segments with their owners.
const SHORT_PATH: usize = 16384;

const SHORT_WALK: usize = 49152;

const SHORT_SEGMENTS: usize = 393216;

const SHORT_OWNERS: usize = 49152;

const SHORT_ENTRIES: usize = 524288;

// The rooms of all others: 65536 points of a path and of a walk, for 2^20 segments with their owners.
pub const PATH: usize = 131072;

pub const WALK: usize = 196608;

pub const SEGMENTS: usize = 8388608;

pub const OWNERS: usize = 1048576;

const ENTRIES: usize = 16777216;

// For 16384 rows.
const ROW_STARTS: usize = 16385;

// In lent rooms. X gains nothing of Y and B all of it, as usual; the precision that is asked for, and the lesser area limit.
fn build_in(
    description: &Description<'_>,
    adjustment: i32,
    task: Task<'_>,
    path: &mut [f32],
    walk: &mut [f32],
    segments: &mut [f32],
    owners: &mut [u64],
    row_starts: &mut [u32],
    entries: &mut [u32],
) -> Result<(), Undone> {
    let setting = Setting {
        adjustment,
        width: task.width,
        height: task.height,
        y_to_x: 0.0,
        y_to_b: 1.0,
        high_precision: task.high,
        level10: false,
    };
    let built = match table::build(
        description,
        setting,
        path,
        walk,
        segments,
        owners,
        row_starts,
        entries,
    ) {
        Ok(built) => built,
        Err((Code::Room, _)) => return Err(Undone::Left),
        Err(refusal) => return Err(refusals::of_building(refusal).into()),
    };
    let table = Table {
        segments,
        segment_count: built.segments,
        entries,
        entry_count: built.entries,
        row_starts,
        height: task.height,
    };
    showing::perform(&table, owners, description.counts.len(), built, task)?;
    Ok(())
}

// Rooms are lent as arrays: the length of each is then known by its type, and no proof counts its cells. Tried with const parameters for the lengths: the proof that arrays of such lengths have a size did not close.
fn build_short(
    description: &Description<'_>,
    adjustment: i32,
    task: Task<'_>,
    path: &mut [f32; SHORT_PATH],
    walk: &mut [f32; SHORT_WALK],
    segments: &mut [f32; SHORT_SEGMENTS],
    owners: &mut [u64; SHORT_OWNERS],
    row_starts: &mut [u32; ROW_STARTS],
    entries: &mut [u32; SHORT_ENTRIES],
) -> Result<(), Undone> {
    build_in(
        description,
        adjustment,
        task,
        path,
        walk,
        segments,
        owners,
        row_starts,
        entries,
    )
}

fn build_long(
    description: &Description<'_>,
    adjustment: i32,
    task: Task<'_>,
    path: &mut [f32; PATH],
    walk: &mut [f32; WALK],
    segments: &mut [f32; SEGMENTS],
    owners: &mut [u64; OWNERS],
    row_starts: &mut [u32; ROW_STARTS],
    entries: &mut [u32; ENTRIES],
) -> Result<(), Undone> {
    build_in(
        description,
        adjustment,
        task,
        path,
        walk,
        segments,
        owners,
        row_starts,
        entries,
    )
}

// What is asked of a table that is built in the short rooms.
fn in_short(description: &Description<'_>, adjustment: i32, task: Task<'_>) -> Result<(), Undone> {
    let mut path = [0.0f32; SHORT_PATH];
    let mut walk = [0.0f32; SHORT_WALK];
    let mut segments = [0.0f32; SHORT_SEGMENTS];
    let mut owners = [0u64; SHORT_OWNERS];
    let mut row_starts = [0u32; ROW_STARTS];
    let mut entries = [0u32; SHORT_ENTRIES];
    build_short(
        description,
        adjustment,
        task,
        &mut path,
        &mut walk,
        &mut segments,
        &mut owners,
        &mut row_starts,
        &mut entries,
    )
}

// What is asked of a table that is built in the long rooms.
fn in_long(description: &Description<'_>, adjustment: i32, task: Task<'_>) -> Result<(), Undone> {
    let mut path = [0.0f32; PATH];
    let mut walk = [0.0f32; WALK];
    let mut segments = [0.0f32; SEGMENTS];
    let mut owners = [0u64; OWNERS];
    let mut row_starts = [0u32; ROW_STARTS];
    let mut entries = [0u32; ENTRIES];
    build_long(
        description,
        adjustment,
        task,
        &mut path,
        &mut walk,
        &mut segments,
        &mut owners,
        &mut row_starts,
        &mut entries,
    )
}

// What is asked of the table of a description, in the short rooms, or in the long ones where those are too short.
pub fn build(description: &Description<'_>, adjustment: i32, task: Task<'_>) -> Result<(), Undone>
    ensures { Unit {0} }
{
    match in_short(description, adjustment, task) {
        Err(Undone::Left) => in_long(description, adjustment, task),
        done => done,
    }
}
