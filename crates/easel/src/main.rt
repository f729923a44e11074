// The picture of a list, drawn in rooms that hold most: what `./gauge draw` starts where `gauge`, which takes longer to prove, is not there yet.
//   easel [--status] [--high] draw VALUES WIDTH HEIGHT PICTURE
// Of a picture it says what `gauge` says. All else, a refusal, a wrong use or a list that is too long, it leaves to `gauge`, without a word and with nothing written.
// A program has no exit status: with `--status` it is written as a digit to descriptor 3 (0: done, 1: not written, 4: left to `gauge`).
#![tactic(auto)]

ghost use Rattle.std.specs.Prelude.{◌≤◌};

use arguments::Kind;
use canvas::{Asked, Task};
use checks::Table;
use desks::Sight;
use read_list::Read;
use shape::Description;
use std::fs::File;
use std::io::{IsTerminal, Stdout};
use std::os::fd::AsRawFd;
use std::rt::{Env, Files};
use table::Setting;
use words::Undone;

const BYTES: usize = 65536;

// A text that does not fill its room has no more values.
const VALUES: usize = 32768;

const SPLINES: usize = 512;

const STARTS: usize = 1024;

const DELTAS: usize = 32768;

const COEFFICIENTS: usize = 65536;

const PATH: usize = 16384;

const WALK: usize = 49152;

const SEGMENTS: usize = 393216;

const OWNERS: usize = 49152;

const ENTRIES: usize = 524288;

// For 16384 rows.
const ROW_STARTS: usize = 16385;

// More words than any use has.
const WORDS: usize = 64;

// The status of what is left to `gauge`.
const LEFT: u64 = 4;

// A picture's task, and the file that it goes to.
#[derive(Clone, Copy)]
struct Drawn<'a> {
    task: Task<'a>,
    file: &'a File,
}

// The table of a description in lent rooms, which are arrays: the length of each is then known by its type, and no proof counts its cells; its counts and its picture. X gains nothing of Y and B all of it, as usual; nothing is hidden.
fn build_in(
    description: &Description<'_>,
    adjustment: i32,
    drawn: Drawn<'_>,
    path: &mut [f32; PATH],
    walk: &mut [f32; WALK],
    segments: &mut [f32; SEGMENTS],
    owners: &mut [u64; OWNERS],
    row_starts: &mut [u32; ROW_STARTS],
    entries: &mut [u32; ENTRIES],
) -> Result<(), Undone> {
    let shown = [0u8; SPLINES];
    let task = drawn.task;
    let splines = description.counts.len();
    let bits = shown.get(..splines).ok_or(Undone::Left)?;
    let setting = Setting {
        adjustment,
        width: task.width,
        height: task.height,
        y_to_x: 0.0,
        y_to_b: 1.0,
        high_precision: task.high,
        level10: false,
    };
    let built = table::build(
        description,
        setting,
        path,
        walk,
        segments,
        owners,
        row_starts,
        entries,
    )
    .map_err(|_| Undone::Left)?;
    let table = Table {
        segments,
        segment_count: built.segments,
        entries,
        entry_count: built.entries,
        row_starts,
        height: task.height,
    };
    let sight = Sight {
        owners,
        splines: splines as u64,
        bits,
        desk: task.desk,
    };
    canvas::say_built(task.to, built)?;
    canvas::draw(&table, &sight, drawn.file, task)?;
    Ok(())
}

fn build(description: &Description<'_>, adjustment: i32, drawn: Drawn<'_>) -> Result<(), Undone> {
    let mut path = [0.0f32; PATH];
    let mut walk = [0.0f32; WALK];
    let mut segments = [0.0f32; SEGMENTS];
    let mut owners = [0u64; OWNERS];
    let mut row_starts = [0u32; ROW_STARTS];
    let mut entries = [0u32; ENTRIES];
    build_in(
        description,
        adjustment,
        drawn,
        &mut path,
        &mut walk,
        &mut segments,
        &mut owners,
        &mut row_starts,
        &mut entries,
    )
}

// The first cells of the buffers are the description of what was read.
fn build_first(buffers: &Description<'_>, read: Read, drawn: Drawn<'_>) -> Result<(), Undone> {
    let description = canvas::first_of(buffers, read.splines, read.points).ok_or(Undone::Left)?;
    build(&description, read.adjustment, drawn)
}

// A list that is read in lent rooms, under the usual configured limit.
fn read_in(
    list: &[u32],
    drawn: Drawn<'_>,
    counts: &mut [u32; SPLINES],
    starts: &mut [f32; STARTS],
    deltas: &mut [i32; DELTAS],
    coefficients: &mut [i32; COEFFICIENTS],
) -> Result<(), Undone> {
    let pixels = canvas::pixels_of(drawn.task);
    let read = reader::read(list, 1048576, pixels, counts, starts, deltas, coefficients).map_err(
        |_| Undone::Left,
    )?;
    let buffers = Description {
        counts,
        starts,
        deltas,
        coefficients,
    };
    build_first(&buffers, read, drawn)
}

// A list.
fn draw_list(list: &[u32], drawn: Drawn<'_>) -> Result<(), Undone> {
    let mut counts = [0u32; SPLINES];
    let mut starts = [0.0f32; STARTS];
    let mut deltas = [0i32; DELTAS];
    let mut coefficients = [0i32; COEFFICIENTS];
    read_in(
        list,
        drawn,
        &mut counts,
        &mut starts,
        &mut deltas,
        &mut coefficients,
    )
}

// The text of an open file goes to a room, and its values to another; a text that fills its room may be longer.
fn load_in(
    fd: i32,
    drawn: Drawn<'_>,
    bytes: &mut [u8; BYTES],
    values: &mut [u32; VALUES],
) -> Result<(), Undone> {
    let n = io::read_full(fd, bytes);
    if BYTES <= n {
        return Err(Undone::Left);
    }
    let held = text::values_of(&bytes[..n], values).map_err(|_| Undone::Left)?;
    draw_list(values.get(..held).ok_or(Undone::Left)?, drawn)
}

// The picture of the list in the file that argument i names.
fn draw_file<R: Env + Files<File = File>>(rt: &R, i: u8, drawn: Drawn<'_>) -> Result<(), Undone> {
    let mut held = io::buffer();
    let n = arguments::fill(rt, usize::from(i), &mut held);
    let file = files::open(rt, &held[..n]).map_err(|_| Undone::Left)?;
    let mut bytes = [0u8; BYTES];
    let mut values = [0u32; VALUES];
    load_in(file.as_raw_fd(), drawn, &mut bytes, &mut values)
}

// The same, into a file of this name.
fn draw_to<R: Env + Files<File = File>>(
    rt: &R,
    to: Stdout,
    terminal: bool,
    i: u8,
    width: u32,
    height: u32,
    path: &[u8],
    floats: bool,
    high: bool,
) -> Result<(), Undone> {
    let file = files::make(rt, path).map_err(|_| Undone::Left)?;
    if file.as_raw_fd() < 2 {
        return Err(Undone::Left);
    }
    let task = Task {
        width,
        height,
        asked: Asked::Picture(&file),
        to,
        floats,
        progress: terminal,
        high,
        hide: &[],
        desk: 0,
        profile: None,
        edition: None,
    };
    draw_file(rt, i, Drawn { task, file: &file })
}

// Into the file that argument i + 3 names, as its name asks for.
fn draw_named<R: Env + Files<File = File>>(
    rt: &R,
    to: Stdout,
    terminal: bool,
    i: u8,
    width: u32,
    height: u32,
    high: bool,
) -> Result<(), Undone>
    requires { i ≤ 40 }
{
    let mut held = io::buffer();
    let n = arguments::fill(rt, usize::from(i) + 3, &mut held);
    let path = &held[..n];
    let floats = match arguments::kind_of(path) {
        Kind::Tones => false,
        Kind::Floats => true,
        _ => return Err(Undone::Left),
    };
    draw_to(rt, to, terminal, i, width, height, path, floats, high)
}

// `draw` at this argument, and four words.
fn draw<R: Env + Files<File = File>>(
    rt: &R,
    to: Stdout,
    terminal: bool,
    at: u8,
    high: bool,
) -> Result<(), Undone>
    requires { at ≤ 3 }
{
    if arguments::count(rt, WORDS) != usize::from(at) + 5
        || !arguments::is_argument(rt, usize::from(at), b"draw")
    {
        return Err(Undone::Left);
    }
    let (width, height) = arguments::size_at(rt, at + 2).ok_or(Undone::Left)?;
    draw_named(rt, to, terminal, at + 1, width, height, high)
}

// The command, behind the precision where it is named.
fn run_from<R: Env + Files<File = File>>(
    rt: &R,
    to: Stdout,
    terminal: bool,
    at: u8,
) -> Result<(), Undone>
    requires { at ≤ 2 }
{
    if arguments::is_argument(rt, usize::from(at), b"--high") {
        draw(rt, to, terminal, at + 1, true)
    } else {
        draw(rt, to, terminal, at, false)
    }
}

// The status, as one digit.
fn tell(done: Result<(), Undone>) {
    match done {
        Ok(()) => words::tell_status(Ok(())),
        Err(Undone::Failed(failure)) => words::tell_status(Err(failure)),
        Err(Undone::Left) => {
            io::print_decimal(3, LEFT);
        }
    }
}

fn main(rt: HostRuntime) {
    let to = rt.stdout();
    let terminal = rt.stderr().is_terminal();
    if arguments::is_argument(&rt, 1, b"--status") {
        tell(run_from(&rt, to, terminal, 2));
    } else {
        let _ = run_from(&rt, to, terminal, 1);
    }
}
