// The bytes of a file, and the values of a text.
#![tactic(auto)]

ghost use Rattle.std.specs.Prelude.{◌≡◌, ◌≢◌, ◌≤◌, IfErr, IfOk, IfSome, length};

use std::fmt::Display;
use std::fs::File;
use std::io::{Error, ErrorKind, Read};
use std::os::fd::AsRawFd;
use std::rt::Files;
use text::ParseError;
use words::Failure;

// A file by its name: open, or why it is not.
#[derive(Clone, Copy)]
pub struct Named<'a> {
    pub name: &'a [u8],
    pub opened: &'a std::io::Result<File>,
}

// What is wrong with a line of the file of this name.
fn at_line<D: Display + Drop>(failure: Failure, name: &[u8], line: usize, what: D) -> Failure
    ensures { result ≡ failure }
{
    io::write_all(2, name);
    words::wrong(failure, format_args!(": line {line}: {what}\n"))
}

// The values of the text in the file of this name: how many there are.
pub fn parse(name: &[u8], text: &[u8], values: &mut [u32]) -> Result<usize, Failure>
    ensures held { IfOk result (λ n. n ≤ length values.new) }
    ensures told { IfErr result (λ failure. failure ≢ Failure.Quiet) }
{
    let room = values.len();
    let why = match text::values_of(text, values) {
        Ok(n) => return Ok(n),
        Err(why) => why,
    };
    Err(match why {
        ParseError::Stranger(at) => at_line(
            Failure::WrongUse,
            name,
            text::line_of(text, at),
            "a byte that is neither a digit nor white space",
        ),
        ParseError::Great(at) => at_line(
            Failure::WrongUse,
            name,
            text::line_of(text, at),
            "a number above 4294967295",
        ),
        ParseError::Full(at) => at_line(
            Failure::Refused,
            name,
            text::line_of(text, at),
            format_args!("more values than this program has room for, {room}"),
        ),
    })
}

// A read that fails, as of a directory, is told from a file that is empty.
fn can_read(mut file: &File) -> std::io::Result<usize> {
    let mut one = [0u8; 1];
    file.read(&mut one)
}

// The line of a file of this name that has more bytes than there is room for.
pub fn too_long(name: &[u8], room: usize) -> Failure
    ensures { result ≡ Failure.Refused }
{
    io::write_all(2, name);
    words::wrong(
        Failure::Refused,
        format_args!(": longer than this program has room for, {room} bytes\n"),
    )
}

// The file of this name, open. A name that is no text in UTF-8 names none.
pub fn open<R: Files<File = File>>(rt: &R, name: &[u8]) -> std::io::Result<File>
    ensures { Unit {0} }
{
    match std::str::from_utf8(name) {
        Ok(path) => std::fs::open(rt, path),
        Err(_) => Err(Error::from(ErrorKind::InvalidFilename)),
    }
}

// The same, to be written: made where there is none, and emptied.
pub fn make<R: Files<File = File>>(rt: &R, name: &[u8]) -> std::io::Result<File>
    ensures { Unit {0} }
{
    match std::str::from_utf8(name) {
        Ok(path) => std::fs::create(rt, path),
        Err(_) => Err(Error::from(ErrorKind::InvalidFilename)),
    }
}

// How many bytes the file of this name has, which is open; none where they fill the buffer, since there may be more.
pub fn fill(name: &[u8], file: &File, bytes: &mut [u8]) -> Result<Option<usize>, Failure>
    ensures held { IfOk result (λ some. IfSome some (λ n. n ≤ length bytes.new)) }
    ensures told { IfErr result (λ failure. failure ≡ Failure.WrongUse) }
{
    let n = io::read_full(file.as_raw_fd(), bytes);
    if n == 0 {
        return match can_read(file) {
            Ok(_) => Ok(Some(0)),
            Err(why) => Err(words::fail(Failure::WrongUse, name, why)),
        };
    }
    if n == bytes.len() {
        return Ok(None);
    }
    Ok(Some(n))
}

// The same of a file by its name, which may not be open.
pub fn load(named: Named<'_>, bytes: &mut [u8]) -> Result<Option<usize>, Failure>
    ensures held { IfOk result (λ some. IfSome some (λ n. n ≤ length bytes.new)) }
    ensures told { IfErr result (λ failure. failure ≡ Failure.WrongUse) }
{
    match named.opened {
        Ok(file) => fill(named.name, file, bytes),
        Err(why) => Err(words::fail(Failure::WrongUse, named.name, *why)),
    }
}
