// Sentences, each in one write: to standard output, to standard error, or into a file; and how a command fails.
#![tactic(auto)]

ghost use Rattle.std.specs.Prelude.{◌≡◌, ◌+◌, ◌≤◌};
ghost use Rattle.io.specs.Counts.{IsPrefixLen};

use std::fmt::Display;
use std::fs::File;
use std::io::{Cursor, Error, ErrorKind, Stdout, Write};

// The bytes of the longest line, and more.
const LINE: usize = 256;

// How a command ends that does not do what is asked for: refused or not written, after a line that says why; used wrongly, after such a line; or, where the
// reader of standard output has gone away, without a word. The numbers are those of the exit status.
#[derive(Clone, Copy, Debug, PartialEq, Eq)]
pub enum Failure {
    Refused = 1,
    WrongUse = 2,
    Quiet = 3,
}

// The error of what may be left to others: why it is not done. It is left, as to longer rooms, or it fails.
#[derive(Clone, Copy, Debug, PartialEq, Eq)]
pub enum Undone {
    Left,
    Failed(Failure),
}

impl From<Failure> for Undone {
    ghost use Rattle.words.specs.declared.Undone.TheVariants.{Failed};

    ghost from_gives = { λ failure undone. undone ≡ Failed failure };

    fn from(failure: Failure) -> Undone {
        Undone::Failed(failure)
    }
}

// A sentence, as far as a line has room for it.
fn line_of<D: Display + Drop>(sentence: D) -> Cursor<[u8; LINE]> {
    let mut line = Cursor::new([0u8; LINE]);
    let _ = write!(line, "{sentence}");
    line
}

// The bytes of a line.
fn bytes_of(line: &Cursor<[u8; LINE]>) -> &[u8] {
    let held = line.get_ref();
    &held[..(line.position() as usize).min(held.len())]
}

// Writes the sentence to standard error.
pub fn note<D: Display + Drop>(sentence: D)
    ensures { Unit {0} }
{
    io::write_all(2, bytes_of(&line_of(sentence)));
}

// Puts a number before the mark with which the cells are filled: how many bytes it takes with one mark behind it.
// Lists and tables have numbers by the million, and by `format_args!` each takes twice the steps.
fn put_number(number: u32, line: &mut [u8; 20]) -> usize
    ensures { IsPrefixLen result line.new }
{
    (io::decimal(u64::from(number), line) + 1).min(20)
}

// A number and the mark that parts it from the next into a file, or why they were not written.
pub fn tell_number(mut file: &File, number: u32, mark: u8) -> std::io::Result<()>
    ensures { Unit {0} }
{
    let mut line = [mark; 20];
    let n = put_number(number, &mut line);
    file.write_all(&line[..n])
}

// A number and the mark that parts it from the next, to standard output.
pub fn out_number(mut to: Stdout, number: u32, mark: u8) -> Result<(), Failure>
    ensures { Unit {0} }
{
    let mut line = [mark; 20];
    let n = put_number(number, &mut line);
    to.write_all(&line[..n]).map_err(unwritten)
}

// Puts a number with its sign from cell `at` on: which cell is behind it.
fn put_signed(z: i32, line: &mut [u8; 48], at: usize) -> usize
    requires { at ≤ 24 }
    ensures { (at ≤ result) × (result ≤ at + 21) }
{
    let mut digits = [0u8; 20];
    let k = io::decimal(u64::from(z.unsigned_abs()), &mut digits);
    let mut from = at;
    if z < 0 {
        line[from] = b'-';
        from += 1;
    }
    for i in 0..k {
        line[from + i] = digits[i];
    }
    from + k
}

// Two numbers with their signs, each behind a space, to standard output: a double delta, of which a trace has a million at most.
pub fn out_pair(mut to: Stdout, x: i32, y: i32) -> Result<(), Failure>
    ensures { Unit {0} }
{
    let mut line = [b' '; 48];
    let first = put_signed(x, &mut line, 1);
    let n = put_signed(y, &mut line, first + 1);
    to.write_all(&line[..n]).map_err(unwritten)
}

// A sentence into a file, or why the whole of it was not written.
pub fn tell<D: Display + Drop>(mut file: &File, sentence: D) -> std::io::Result<()>
    ensures { Unit {0} }
{
    file.write_all(bytes_of(&line_of(sentence)))
}

// How many bytes stand before the last parenthesis and what parts it from them; all where there is none.
fn before_last(text: &[u8]) -> usize
    ensures { IsPrefixLen result text.now }
{
    match text.iter().rposition(|&b| b == b'(') {
        Some(at) if 0 < at => at - 1,
        _ => text.len(),
    }
}

// How many bytes of an error's text are told: the number of an error of the system, which stands behind its words, is not.
fn told_of(why: Error, text: &[u8]) -> usize
    ensures { IsPrefixLen result text.now }
{
    match why.raw_os_error() {
        Some(_) => before_last(text),
        None => text.len(),
    }
}

// A line that says what failed and why, to standard error; and the failure that it leads to.
pub fn fail(failure: Failure, what: &[u8], why: Error) -> Failure
    ensures { result ≡ failure }
{
    let line = line_of(why);
    let text = bytes_of(&line);
    io::write_all(2, what);
    io::write_all(2, b": ");
    io::write_all(2, &text[..told_of(why, text)]);
    io::write_all(2, b"\n");
    failure
}

// How a command fails where standard output cannot be written: after a line that says why; where its reader has gone away, without a word.
fn unwritten(why: Error) -> Failure {
    if why.kind() == ErrorKind::BrokenPipe {
        return Failure::Quiet;
    }
    fail(Failure::Refused, b"standard output", why)
}

// A result, to standard output.
pub fn out<D: Display + Drop>(mut to: Stdout, sentence: D) -> Result<(), Failure>
    ensures { Unit {0} }
{
    to.write_all(bytes_of(&line_of(sentence)))
        .map_err(unwritten)
}

// What is wrong, to standard error; and the failure that it leads to.
pub fn wrong<D: Display + Drop>(failure: Failure, sentence: D) -> Failure
    ensures { result ≡ failure }
{
    note(sentence);
    failure
}

// How a command ended, as one digit to descriptor 3: 0 where it did what is asked for; none after an end that is to be quiet.
pub fn tell_status(done: Result<(), Failure>)
    ensures { Unit {0} }
{
    match done {
        Ok(()) => {
            io::print_decimal(3, 0);
        }
        Err(Failure::Quiet) => {}
        Err(failure) => {
            io::print_decimal(3, failure as u64);
        }
    }
}
