// `gauge svg in`: the start and the double deltas of each trace of a drawing.
#![tactic(auto)]

use std::io::Stdout;
use words::{Failure, out, out_pair, wrong};

// A text below this takes no more double deltas than there is room for in the short room: two numbers for at least four bytes.
const SHORT_TEXT: usize = 65536;

const SHORT_DELTAS: usize = 32768;

const DELTAS: usize = 2097152;

fn say_trace(to: Stdout, number: u64, x: f32, y: f32, deltas: &[i32]) -> Result<(), Failure> {
    let x = kinds::saturating_f32_to_i32(x);
    let y = kinds::saturating_f32_to_i32(y);
    let n = deltas.len() / 2;
    out(
        to,
        format_args!("trace {number} starts at {x}, {y} and has {n} double deltas\ndouble deltas:"),
    )?;
    for pair in deltas.chunks_exact(2) {
        out_pair(to, pair[0], pair[1])?;
    }
    out(to, "\n")
}

// A trace by its text of points, whose double deltas go to a room.
fn say_read(to: Stdout, number: u64, text: &[u8], deltas: &mut [i32]) -> Result<(), Failure> {
    let mut start = [0.0f32; 2];
    let n = polyline_read::points_read(text, &mut start, deltas).map_err(
        |refusal| refusals::of_points(refusal, number, text.len()),
    )?;
    if deltas.len() / 2 < n {
        return Err(Failure::Refused);
    }
    say_trace(to, number, start[0], start[1], &deltas[..2 * n])
}

// The rooms are lent as arrays: the length of each is then known by its type, and no proof counts its cells.
fn say_in<const N: usize>(
    to: Stdout,
    number: u64,
    text: &[u8],
    deltas: &mut [i32; N],
) -> Result<(), Failure> {
    say_read(to, number, text, deltas)
}

// Of so many traces each has its room cleared, so that a short text gets a short one.
fn say_points(to: Stdout, number: u64, text: &[u8]) -> Result<(), Failure> {
    if text.len() < SHORT_TEXT {
        let mut deltas = [0i32; SHORT_DELTAS];
        return say_in(to, number, text, &mut deltas);
    }
    let mut deltas = [0i32; DELTAS];
    say_in(to, number, text, &mut deltas)
}

// A number in decimal digits, if it is one.
fn number_in(digits: &[u8]) -> Option<u32> {
    let mut cell = [0u32; 1];
    match text::values_of(digits, &mut cell) {
        Ok(1) => Some(cell[0]),
        _ => None,
    }
}

// What stands in an element behind this name of an attribute, with its `="`, up to the next quotation mark or the end of the element.
fn value_of<'e>(element: &'e [u8], name: &[u8]) -> Option<&'e [u8]> {
    let at = finding::attribute(element, name)?;
    let behind = element.get(at..)?.strip_prefix(name)?;
    match finding::find(behind, 0, b"\"") {
        Some(past) => Some(&behind[..past]),
        None => Some(behind),
    }
}

// The number of a polyline: N by the id trace-N, else its place among the polylines.
fn number_of(element: &[u8], order: u64) -> u64 {
    value_of(element, b"id=\"trace-")
        .and_then(number_in)
        .map_or(order, u64::from)
}

// The points of the polyline of this number.
fn say_line(to: Stdout, element: &[u8], number: u64) -> Result<(), Failure> {
    let Some(points) = value_of(element, b"points=\"") else {
        return Err(wrong(
            Failure::Refused,
            format_args!("trace {number} has no points: points=\"..\" is due in its polyline\n"),
        ));
    };
    say_points(to, number, points)
}

// A polyline, where it is asked for; whether it was.
fn take_line(to: Stdout, element: &[u8], order: u64, wanted: Option<u32>) -> Result<bool, Failure> {
    let number = number_of(element, order);
    if let Some(n) = wanted {
        if u64::from(n) != number {
            return Ok(false);
        }
    }
    say_line(to, element, number)?;
    Ok(true)
}

// What is said behind so many polylines, of which one that is asked for was found or none.
fn say_end(order: u64, found: bool, wanted: Option<u32>) -> Result<(), Failure> {
    if order == 0 {
        return Err(wrong(Failure::Refused, "there is no polyline in this drawing\n"));
    }
    match wanted {
        Some(n) if !found => Err(wrong(
            Failure::WrongUse,
            format_args!("no trace of this drawing has the number {n}: it has {order} traces\n"),
        )),
        _ => Ok(()),
    }
}

// Every polyline that is asked for. Each is as long as it is, so the places where they begin form no range.
fn say_lines(to: Stdout, bytes: &[u8], wanted: Option<u32>) -> Result<(), Failure> {
    let mut from = 0;
    let mut order: u64 = 0;
    let mut found = false;
    while let Some(at) = finding::next_line(bytes, from) {
        let Some(end) = finding::end_of(bytes, at) else {
            return Err(wrong(
                Failure::Refused,
                format_args!(
                    "the drawing is cut: it ends within polyline {order}, counted from 0\n"
                ),
            ));
        };
        found |= take_line(to, &bytes[at..end], order, wanted)?;
        from = end + 1;
        order += 1;
    }
    say_end(order, found, wanted)
}

// The traces of a drawing: all of them, or that of the number that is asked for.
pub fn say(to: Stdout, bytes: &[u8], wanted: Option<u32>) -> Result<(), Failure>
    ensures { Unit {0} }
{
    if finding::find(bytes, 0, b"<svg").is_none() {
        return Err(wrong(
            Failure::Refused,
            "this is no drawing: there is no <svg in it\n",
        ));
    }
    if finding::find(bytes, 0, b"</svg").is_none() {
        return Err(wrong(
            Failure::Refused,
            "the drawing is cut: it ends before its </svg>\n",
        ));
    }
    say_lines(to, bytes, wanted)
}
