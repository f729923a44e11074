// A picture of a built table in an open file; and what a task is, of which a picture is one.
#![tactic(auto)]

ghost use Rattle.std.specs.Prelude.{◌≡◌, ◌↔◌, IfSome, IsSome, ◌*◌, ◌≤◌, ◌<◌, length, take};

use build_answer::Built;
use checks::Table;
use desks::Sight;
use files::Named;
use shape::Description;
use std::fs::File;
use std::io::{Error, ErrorKind, Stdout, Write};
use words::Failure;

// The pixels that are drawn at a time, and the bytes that they take at most.
const STRIP: u32 = 2048;

const CELLS: usize = 2048;

const BYTES: usize = 24576;

// What is asked of a description: what it holds, its rows, its bands, its picture, the traces that have the pixel in this column and row, why the segment of this number sits where it does, its row table, whether that in this file is it, whether it meets this edition of the profile, its trace file, its list, or its line drawing; what is made goes to the file that it names.
#[derive(Clone, Copy)]
pub enum Asked<'a> {
    Contents,
    Rows,
    Bands,
    Picture(&'a File),
    Touch(u32, u32),
    Why(u32),
    Table,
    Check(Named<'a>),
    Profile(u32),
    Trace(&'a File),
    List(&'a File),
    Drawing(&'a File),
}

// What is asked, of an image of this size (no rows and columns where there is none), where words go, and whether a picture is of floats, and the text that names the traces that are hidden for the desk (empty: none), by which edition of the profile it is to be built, if by one, and which edition a trace file is to hold (none: a file of version 1).
#[derive(Clone, Copy)]
pub struct Task<'a> {
    pub width: u32,
    pub height: u32,
    pub asked: Asked<'a>,
    pub to: Stdout,
    pub floats: bool,
    pub progress: bool,
    pub high: bool,
    pub hide: &'a [u8],
    pub desk: u32,
    pub profile: Option<u32>,
    pub edition: Option<u32>,
}

// The pixels of the image, as far as 32 bits hold them; where there is no image they limit nothing.
pub fn pixels_of(task: Task<'_>) -> u32
    ensures { Unit {0} }
{
    match task.width.saturating_mul(task.height) {
        0 => u32::MAX,
        area => area,
    }
}

// The first cells of the buffers, as a description of so many splines and points.
pub fn first_of<'a>(buffers: &Description<'a>, splines: u32, points: u32) -> Option<Description<'a>>
    ensures counts { IfSome result (λ d. d.counts.now ≡ take splines buffers.now.counts.now) }
    ensures starts { IfSome result (λ d. d.starts.now ≡ take (2 * splines) buffers.now.starts.now) }
    ensures deltas { IfSome result (λ d. d.deltas.now ≡ take (2 * points) buffers.now.deltas.now) }
    ensures coefficients { IfSome result (λ d. d.coefficients.now ≡ take (128 * splines) buffers.now.coefficients.now) }
    ensures fits { IsSome result ↔ (splines ≤ length buffers.now.counts.now) × (2 * splines ≤ length buffers.now.starts.now) × (2 * points ≤ length buffers.now.deltas.now) × (128 * splines ≤ length buffers.now.coefficients.now) }
{
    let s = splines as usize;
    let n = points as usize;
    Some(Description {
        counts: buffers.counts.get(..s)?,
        starts: buffers.starts.get(..2 * s)?,
        deltas: buffers.deltas.get(..2 * n)?,
        coefficients: buffers.coefficients.get(..128 * s)?,
    })
}

// The counts of a built table, in words.
pub fn say_built(to: Stdout, built: Built) -> Result<(), Failure>
    ensures { Unit {0} }
{
    let segments = built.segments;
    let faint = built.faint;
    let entries = built.entries;
    let estimate = built.estimate;
    words::out(
        to,
        format_args!(
            "{segments} segments, {faint} of them faint, {entries} entries, estimate {estimate}\n"
        ),
    )
}

// Why a picture is not written that cannot be drawn.
fn no_reason() -> Error {
    Error::from(ErrorKind::InvalidInput)
}

// Writes n pixels.
fn write_part(
    mut file: &File,
    floats: bool,
    n: usize,
    x: &[f32],
    y: &[f32],
    b: &[f32],
) -> std::io::Result<()>
    requires { (n ≤ 2048) × (n ≤ length x.now) × (n ≤ length y.now) × (n ≤ length b.now) }
{
    let mut bytes = [0u8; BYTES];
    if floats {
        pixels::floats(n, x, y, b, &mut bytes);
        file.write_all(&bytes[..12 * n])
    } else {
        pixels::tones(n, x, y, b, &mut bytes);
        file.write_all(&bytes[..3 * n])
    }
}

// Draws n pixels of row y from x0 on, on black, and writes them; how many updates that took.
fn draw_part(
    table: &Table<'_>,
    sight: &Sight<'_>,
    file: &File,
    floats: bool,
    y: u32,
    x0: u32,
    n: u32,
) -> std::io::Result<u64>
    requires { n ≤ 2048 }
{
    let mut r0 = [0.0f32; CELLS];
    let mut r1 = [0.0f32; CELLS];
    let mut r2 = [0.0f32; CELLS];
    let updates = draw::draw(table, sight, y, x0, n, &mut r0, &mut r1, &mut r2).map_err(
        |_| no_reason(),
    )?;
    write_part(file, floats, n as usize, &r0, &r1, &r2)?;
    Ok(updates)
}

// A whole row, strip by strip.
fn draw_row(
    table: &Table<'_>,
    sight: &Sight<'_>,
    file: &File,
    task: Task<'_>,
    y: u32,
) -> std::io::Result<u64> {
    let mut sum: u64 = 0;
    for x0 in (0..task.width).step_by(CELLS) {
        let n = task.width.saturating_sub(x0).min(STRIP);
        let updates = draw_part(table, sight, file, task.floats, y, x0, n)?;
        sum = sum.saturating_add(updates);
    }
    Ok(sum)
}

// Every 256 rows, where progress is asked for.
fn say_progress(task: Task<'_>, k: u32) {
    if task.progress && k % 256 == 0 {
        let height = task.height;
        words::note(format_args!("row {k} of {height}\n"));
    }
}

// All rows: a file of floats begins with the bottom row.
fn draw_rows(
    table: &Table<'_>,
    sight: &Sight<'_>,
    file: &File,
    task: Task<'_>,
) -> std::io::Result<u64> {
    let height = task.height;
    let mut sum: u64 = 0;
    for k in 0..height {
        say_progress(task, k);
        let y = if task.floats { height - 1 - k } else { k };
        let updates = draw_row(table, sight, file, task, y)?;
        sum = sum.saturating_add(updates);
    }
    Ok(sum)
}

// The head of a picture: its kind, its size, and the greatest tone or the order of bytes.
fn write_head(file: &File, task: Task<'_>) -> std::io::Result<()> {
    let width = task.width;
    let height = task.height;
    if task.floats {
        words::tell(file, format_args!("PF\n{width} {height}\n-1.0\n"))
    } else {
        words::tell(file, format_args!("P6\n{width} {height}\n255\n"))
    }
}

// Whether the trace of an entry is not hidden for the desk.
fn is_shown(sight: &Sight<'_>, entry: u32) -> bool {
    let at = entry as usize;
    at < sight.owners.len()
        && (sight.owners[at] as usize) < sight.bits.len()
        && sight.desk < 2
        && !desks::hidden(sight, at)
}

// How many entries of a row are shown.
pub fn shown_of(table: &Table<'_>, sight: &Sight<'_>, y: u32) -> usize
    ensures { Unit {0} }
{
    let at = y as usize;
    if table.row_starts.len() <= at + 1 {
        return 0;
    }
    let first = table.row_starts[at] as usize;
    let past = table.row_starts[at + 1] as usize;
    let row = table.entries.get(first..past).unwrap_or(&[]);
    row.iter().filter(|&&entry| is_shown(sight, entry)).count()
}

// How many rows show any.
fn rows_held(table: &Table<'_>, sight: &Sight<'_>, height: u32) -> usize {
    (0..height)
        .filter(|&y| 0 < shown_of(table, sight, y))
        .count()
}

// How a command fails that could not write the picture.
fn no_picture(why: Error) -> Failure {
    words::fail(Failure::Refused, b"the picture", why)
}

// `gauge draw`: the picture, and how many updates it took.
pub fn draw(
    table: &Table<'_>,
    sight: &Sight<'_>,
    file: &File,
    task: Task<'_>,
) -> Result<(), Failure>
    ensures { Unit {0} }
{
    write_head(file, task).map_err(no_picture)?;
    let updates = draw_rows(table, sight, file, task).map_err(no_picture)?;
    let rows = rows_held(table, sight, task.height);
    words::out(
        task.to,
        format_args!("{updates} updates, {rows} rows that hold anything\n"),
    )
}
