// What a list of decoded values or a trace file holds, what it draws, which rows and bands, whose a pixel is, why a segment sits where it does, its row table and another maker's, whether it meets the fineness profile,
// either made from the other, and its line drawing: `gauge read`, `gauge draw`, `gauge rows`, `gauge bands`, `gauge touch`, `gauge why`, `gauge table`, `gauge check`, `gauge profile`, `gauge trace`, `gauge svg`.
// A program has no exit status: with `--status` it is written as a digit to descriptor 3 (0: done, 1: refused, 2: wrong use).
#![tactic(auto)]

ghost use Rattle.std.specs.Prelude.{◌≤◌};

use arguments::{Kind, kind_at, kind_of, pixel_at, size_at};
use asking::{Command, Options};
use canvas::{Asked, Task};
use files::Named;
use std::fs::File;
use std::io::{IsTerminal, Seek, Stdout};
use std::os::fd::AsRawFd;
use std::rt::{Env, Files};
use words::{Failure, Undone, wrong};

// As many as a list of 4096 splines and 2^20 points has.
const VALUES: usize = 2633730;

// A value of a list takes 11 bytes at most, with what parts it from the next, and a trace file is shorter; and more, so that a file that fills it is known to be too long.
const BYTES: usize = 33554432;

// A text that does not fill this has no more values than the room below has.
const SHORT_BYTES: usize = 65536;

const SHORT_VALUES: usize = 32768;

// More words than any use has.
const WORDS: usize = 64;

// What a command is asked with: where words go, the options before it, and the text that names the traces that are hidden, which is empty where none are.
#[derive(Clone, Copy)]
struct With<'a> {
    to: Stdout,
    options: Options,
    hide: &'a [u8],
}

fn usage() -> Failure {
    wrong(
        Failure::WrongUse,
        "usage: gauge read, rows, bands, touch, why, table, check, profile, draw, trace out or in, svg out or in, each with the file VALUES and what it asks for: ./gauge --help tells the words of each\n",
    )
}

fn no_size() -> Failure {
    wrong(
        Failure::WrongUse,
        "a width and a height from 1 through 8388608 are due, and this program has room for 16384 rows\n",
    )
}

fn no_pixel() -> Failure {
    wrong(
        Failure::WrongUse,
        "a column X below the width and a row Y below the height are due\n",
    )
}

// What is asked of the bytes that the file of this name has; the values of a text go to a room.
fn perform_bytes(
    name: &[u8],
    bytes: &[u8],
    task: Task<'_>,
    values: &mut [u32; VALUES],
) -> Result<(), Failure> {
    if kind_of(name) == Kind::Trace {
        return rooms::of_trace(bytes, task);
    }
    let n = files::parse(name, bytes, values)?;
    rooms::of_list(&values[..n], task)
}

// What is asked of an open file of this name. The rooms are lent as arrays: the length of each is then known by its type, and no proof counts its cells.
fn perform_in(
    name: &[u8],
    file: &File,
    task: Task<'_>,
    bytes: &mut [u8; BYTES],
    values: &mut [u32; VALUES],
) -> Result<(), Failure> {
    match files::fill(name, file, bytes)? {
        None => Err(files::too_long(name, BYTES - 1)),
        Some(n) => perform_bytes(name, &bytes[..n], task, values),
    }
}

// What is asked of an open file, in rooms for all that this program takes.
fn perform_long(name: &[u8], file: &File, task: Task<'_>) -> Result<(), Failure> {
    let mut bytes = [0u8; BYTES];
    let mut values = [0u32; VALUES];
    perform_in(name, file, task, &mut bytes, &mut values)
}

// What the bytes hold that the file of this name has.
fn tell_bytes(
    to: Stdout,
    name: &[u8],
    bytes: &[u8],
    values: &mut [u32; SHORT_VALUES],
) -> Result<(), Undone> {
    if kind_of(name) == Kind::Trace {
        return contents::tell_trace(to, bytes);
    }
    let n = files::parse(name, bytes, values)?;
    contents::tell_list(to, &values[..n])
}

fn tell_in(
    to: Stdout,
    name: &[u8],
    file: &File,
    bytes: &mut [u8; SHORT_BYTES],
    values: &mut [u32; SHORT_VALUES],
) -> Result<(), Undone> {
    match files::fill(name, file, bytes)? {
        None => Err(Undone::Left),
        Some(n) => tell_bytes(to, name, &bytes[..n], values),
    }
}

// What an open file holds, in rooms that fit a small stack.
fn tell_short(to: Stdout, name: &[u8], file: &File) -> Result<(), Undone> {
    let mut bytes = [0u8; SHORT_BYTES];
    let mut values = [0u32; SHORT_VALUES];
    tell_in(to, name, file, &mut bytes, &mut values)
}

// What an open file holds. One that is too long is read again; a pipe, which has no position, can be read only once.
fn read_open(name: &[u8], mut file: &File, task: Task<'_>) -> Result<(), Failure> {
    if let Err(_) = file.stream_position() {
        return perform_long(name, file, task);
    }
    match tell_short(task.to, name, file) {
        Ok(()) => Ok(()),
        Err(Undone::Failed(failure)) => Err(failure),
        Err(Undone::Left) => {
            let _ = file.rewind();
            perform_long(name, file, task)
        }
    }
}

// What is asked of the file that argument i names.
fn perform<R: Env + Files<File = File>>(rt: &R, i: u8, task: Task<'_>) -> Result<(), Failure> {
    let mut held = io::buffer();
    let n = arguments::fill(rt, usize::from(i), &mut held);
    let name = &held[..n];
    match files::open(rt, name) {
        Ok(file) => perform_long(name, &file, task),
        Err(why) => Err(words::fail(Failure::WrongUse, name, why)),
    }
}

// A task of these options, in words to standard output.
fn task<'a>(with: With<'a>, width: u32, height: u32, asked: Asked<'a>) -> Task<'a> {
    let options = with.options;
    Task {
        width,
        height,
        asked,
        to: with.to,
        floats: false,
        progress: false,
        high: options.high,
        hide: with.hide,
        desk: options.desk,
        profile: options.profile,
        edition: options.edition,
    }
}

fn read<R: Env + Files<File = File>>(rt: &R, i: u8, with: With<'_>) -> Result<(), Failure> {
    let mut held = io::buffer();
    let n = arguments::fill(rt, usize::from(i), &mut held);
    let name = &held[..n];
    match files::open(rt, name) {
        Ok(file) => read_open(name, &file, task(with, 0, 0, Asked::Contents)),
        Err(why) => Err(words::fail(Failure::WrongUse, name, why)),
    }
}

// What is asked of the file that argument i names in an image whose size the next two say: its rows, its bands, or its row starts and entries.
fn table<R: Env + Files<File = File>>(
    rt: &R,
    i: u8,
    with: With<'_>,
    asked: Asked<'_>,
) -> Result<(), Failure>
    requires { i ≤ 40 }
{
    let (width, height) = size_at(rt, i + 1).ok_or_else(no_size)?;
    perform(rt, i, task(with, width, height, asked))
}

// The traces that have the pixel that the arguments after the size say.
fn touch<R: Env + Files<File = File>>(rt: &R, i: u8, with: With<'_>) -> Result<(), Failure>
    requires { i ≤ 40 }
{
    let (width, height) = size_at(rt, i + 1).ok_or_else(no_size)?;
    let (x, y) = pixel_at(rt, i + 3, width, height).ok_or_else(no_pixel)?;
    perform(rt, i, task(with, width, height, Asked::Touch(x, y)))
}

// Why the segment that the argument after the size says sits where it does.
fn why<R: Env + Files<File = File>>(rt: &R, i: u8, with: With<'_>) -> Result<(), Failure>
    requires { i ≤ 40 }
{
    let (width, height) = size_at(rt, i + 1).ok_or_else(no_size)?;
    let Some(n) = arguments::argument(rt, usize::from(i) + 3) else {
        return Err(wrong(Failure::WrongUse, "the number of a segment is due\n"));
    };
    perform(rt, i, task(with, width, height, Asked::Why(n)))
}

// Whether the row starts and entries of the file that the argument after the size names are the table. The file is opened first, and what is wrong with it is told last.
fn check<R: Env + Files<File = File>>(rt: &R, i: u8, with: With<'_>) -> Result<(), Failure>
    requires { i ≤ 40 }
{
    let (width, height) = size_at(rt, i + 1).ok_or_else(no_size)?;
    let mut held = io::buffer();
    let n = arguments::fill(rt, usize::from(i) + 3, &mut held);
    let name = &held[..n];
    let opened = files::open(rt, name);
    let named = Named {
        name,
        opened: &opened,
    };
    perform(rt, i, task(with, width, height, Asked::Check(named)))
}

// Whether the file that argument i names meets the edition that the next argument is, or edition 1 where there is none.
fn profile<R: Env + Files<File = File>>(
    rt: &R,
    i: u8,
    more: usize,
    with: With<'_>,
) -> Result<(), Failure>
    requires { i ≤ 40 }
{
    let edition = if more == 1 {
        1
    } else {
        asking::edition_at(rt, usize::from(i) + 1)
    };
    perform(rt, i, task(with, 0, 0, Asked::Profile(edition)))
}

// What goes into a file.
#[derive(Clone, Copy, Debug, PartialEq, Eq)]
enum Made {
    Tones,
    Floats,
    Trace,
    List,
    Drawing,
}

fn asked_of(made: Made, file: &File) -> Asked<'_> {
    match made {
        Made::Tones | Made::Floats => Asked::Picture(file),
        Made::Trace => Asked::Trace(file),
        Made::List => Asked::List(file),
        Made::Drawing => Asked::Drawing(file),
    }
}

// What is asked of the file that argument i names, into an open file.
fn make_in<'x, R: Env + Files<File = File>>(
    rt: &R,
    i: u8,
    width: u32,
    height: u32,
    made: Made,
    file: &'x File,
    with: With<'x>,
) -> Result<(), Failure> {
    let asked = task(with, width, height, asked_of(made, file));
    perform(
        rt,
        i,
        Task {
            floats: made == Made::Floats,
            progress: with.options.progress,
            ..asked
        },
    )
}

// What is asked of the file that argument i names, into a file of this name.
fn write_to<R: Env + Files<File = File>>(
    rt: &R,
    i: u8,
    width: u32,
    height: u32,
    made: Made,
    path: &[u8],
    with: With<'_>,
) -> Result<(), Failure> {
    let file = files::make(rt, path).map_err(|why| words::fail(Failure::WrongUse, path, why))?;
    if file.as_raw_fd() == 1 {
        return Err(wrong(Failure::Refused, "standard output is closed\n"));
    }
    make_in(rt, i, width, height, made, &file, with)
}

// The picture of the file that argument i names, in an image of the size that the next ones say, into the file that the one behind them names.
fn draw<R: Env + Files<File = File>>(rt: &R, i: u8, with: With<'_>) -> Result<(), Failure>
    requires { i ≤ 40 }
{
    let (width, height) = size_at(rt, i + 1).ok_or_else(no_size)?;
    let mut held = io::buffer();
    let n = arguments::fill(rt, usize::from(i) + 3, &mut held);
    let path = &held[..n];
    match kind_of(path) {
        Kind::Tones => write_to(rt, i, width, height, Made::Tones, path, with),
        Kind::Floats => write_to(rt, i, width, height, Made::Floats, path, with),
        _ => Err(usage()),
    }
}

// The trace file of the file that argument i names, into the file that the next one names.
fn trace_out<R: Env + Files<File = File>>(rt: &R, i: u8, with: With<'_>) -> Result<(), Failure>
    requires { i ≤ 60 }
{
    let mut held = io::buffer();
    let n = arguments::fill(rt, usize::from(i) + 1, &mut held);
    let path = &held[..n];
    match kind_of(path) {
        Kind::Trace => write_to(rt, i, 0, 0, Made::Trace, path, with),
        _ => Err(usage()),
    }
}

// The list of the trace file that argument i names, into the file that the next one names, which is none.
fn trace_in<R: Env + Files<File = File>>(rt: &R, i: u8, with: With<'_>) -> Result<(), Failure>
    requires { i ≤ 60 }
{
    if kind_at(rt, usize::from(i)) != Kind::Trace {
        return Err(usage());
    }
    let mut held = io::buffer();
    let n = arguments::fill(rt, usize::from(i) + 1, &mut held);
    let path = &held[..n];
    match kind_of(path) {
        Kind::Other => write_to(rt, i, 0, 0, Made::List, path, with),
        _ => Err(usage()),
    }
}

// `out` or `in` at argument i, and two files.
fn trace<R: Env + Files<File = File>>(rt: &R, i: u8, with: With<'_>) -> Result<(), Failure>
    requires { i ≤ 40 }
{
    if arguments::is_argument(rt, usize::from(i), b"out") {
        trace_out(rt, i + 1, with)
    } else if arguments::is_argument(rt, usize::from(i), b"in") {
        trace_in(rt, i + 1, with)
    } else {
        Err(usage())
    }
}

// The line drawing of the file that argument i names, in an image of the size that the next ones say, into the file that the one behind them names.
fn svg_out<R: Env + Files<File = File>>(rt: &R, i: u8, with: With<'_>) -> Result<(), Failure>
    requires { i ≤ 50 }
{
    let (width, height) = size_at(rt, i + 1).ok_or_else(no_size)?;
    let mut held = io::buffer();
    let n = arguments::fill(rt, usize::from(i) + 3, &mut held);
    let path = &held[..n];
    match kind_of(path) {
        Kind::Drawing => write_to(rt, i, width, height, Made::Drawing, path, with),
        _ => Err(usage()),
    }
}

// The traces of the drawing in the named file, whose bytes go to a room.
fn svg_loaded(
    to: Stdout,
    named: Named<'_>,
    wanted: Option<u32>,
    bytes: &mut [u8; BYTES],
) -> Result<(), Failure> {
    match files::load(named, bytes)? {
        None => Err(files::too_long(named.name, BYTES - 1)),
        Some(n) => taking::say(to, &bytes[..n], wanted),
    }
}

// The traces of the drawing that argument i names: all, or that of the number that is asked for.
fn svg_in<R: Env + Files<File = File>>(
    rt: &R,
    i: u8,
    to: Stdout,
    wanted: Option<u32>,
) -> Result<(), Failure> {
    let mut held = io::buffer();
    let n = arguments::fill(rt, usize::from(i), &mut held);
    let name = &held[..n];
    let opened = files::open(rt, name);
    let named = Named {
        name,
        opened: &opened,
    };
    let mut bytes = [0u8; BYTES];
    svg_loaded(to, named, wanted, &mut bytes)
}

// The same of the trace whose number the next argument is.
fn svg_in_one<R: Env + Files<File = File>>(rt: &R, i: u8, to: Stdout) -> Result<(), Failure>
    requires { i ≤ 60 }
{
    match arguments::argument(rt, usize::from(i) + 1) {
        Some(n) => svg_in(rt, i, to, Some(n)),
        None => Err(wrong(Failure::WrongUse, "the number of a trace is due\n")),
    }
}

// `out` or `in` at argument i, with so many words from it on.
fn svg<R: Env + Files<File = File>>(
    rt: &R,
    i: u8,
    more: usize,
    with: With<'_>,
) -> Result<(), Failure>
    requires { i ≤ 40 }
{
    let out = arguments::is_argument(rt, usize::from(i), b"out");
    let taken = arguments::is_argument(rt, usize::from(i), b"in");
    match more {
        5 if out => svg_out(rt, i + 1, with),
        2 if taken => svg_in(rt, i + 1, with.to, None),
        3 if taken => svg_in_one(rt, i + 1, with.to),
        _ => Err(usage()),
    }
}

// The command with these options, whose words behind it are so many.
fn run_words<R: Env + Files<File = File>>(
    rt: &R,
    at: u8,
    more: usize,
    with: With<'_>,
) -> Result<(), Failure>
    requires { at ≤ 20 }
{
    let command = asking::command_at(rt, usize::from(at)).ok_or_else(usage)?;
    if !asking::may_have(command, more) {
        return Err(usage());
    }
    let i = at + 1;
    match command {
        Command::Read => read(rt, i, with),
        Command::Rows => table(rt, i, with, Asked::Rows),
        Command::Bands => table(rt, i, with, Asked::Bands),
        Command::Touch => touch(rt, i, with),
        Command::Why => why(rt, i, with),
        Command::Table => table(rt, i, with, Asked::Table),
        Command::Check => check(rt, i, with),
        Command::Profile => profile(rt, i, more, with),
        Command::Draw => draw(rt, i, with),
        Command::Trace => trace(rt, i, with),
        Command::Svg => svg(rt, i, more, with),
    }
}

// The text that argument i is, which names what is hidden, and goes to a room; an empty one where nothing is.
fn hidden_at<'a>(rt: &impl Env, i: Option<u8>, held: &'a mut [u8; hiding::ROOM]) -> &'a [u8] {
    let Some(i) = i else {
        return &[];
    };
    let n = arguments::fill_up(rt, usize::from(i), held);
    &held[..n]
}

// The command behind the options that begin at argument `at`.
fn run_from<R: Env + Files<File = File>>(
    rt: &R,
    to: Stdout,
    terminal: bool,
    at: u8,
) -> Result<(), Failure>
    requires { at ≤ 2 }
{
    let options = asking::options_from(rt, at, terminal).ok_or_else(usage)?;
    if 1 < options.desk {
        return Err(wrong(
            Failure::WrongUse,
            "a desk is 0, the operator's, or 1, the class checker's\n",
        ));
    }
    let command = usize::from(options.at);
    let words = arguments::count(rt, WORDS);
    if words <= command {
        return Err(usage());
    }
    let mut held = [0u8; hiding::ROOM];
    let hide = hidden_at(rt, options.hide, &mut held);
    run_words(
        rt,
        options.at,
        words - command - 1,
        With { to, options, hide },
    )
}

fn main(rt: HostRuntime) {
    let to = rt.stdout();
    let terminal = rt.stderr().is_terminal();
    if arguments::is_argument(&rt, 1, b"--status") {
        words::tell_status(run_from(&rt, to, terminal, 2));
    } else {
        let _ = run_from(&rt, to, terminal, 1);
    }
}
