// `gauge why`: one segment, its trace, where it sits, and by which kind each of its four ends.
#![tactic(auto)]

use kinds::Kind;
use std::io::Stdout;
use words::{Failure, out, wrong};

fn say_size(to: Stdout, v: f32) -> Result<(), Failure> {
    match kinds::rounded_to_u64(100.0 * numbers::abs(v)) {
        Kind::Exact(hundredths) => {
            let sign = if v < 0.0 { "-" } else { "" };
            let whole = hundredths / 100;
            let rest = hundredths % 100;
            out(to, format_args!(" {sign}{whole}.{rest:02}\n"))
        }
        Kind::NotNumber => out(to, " not a number\n"),
        _ => out(to, " beyond every row and column\n"),
    }
}

fn say_number(to: Stdout, name: &str, v: f32) -> Result<(), Failure> {
    out(to, name)?;
    say_size(to, v)
}

// An end that is a whole number, told by its size, below 0 or not.
fn say_whole(to: Stdout, negative: bool, end: f32) -> Result<(), Failure> {
    let (sign, size) = if negative { ("-", -end) } else { ("", end) };
    let n = match kinds::rounded_to_u64(size) {
        Kind::Exact(n) => n,
        _ => 0,
    };
    out(to, format_args!(" exactly {sign}{n}\n"))
}

// An end of the rows, by its kind.
fn say_row_kind(to: Stdout, end: f32) -> Result<(), Failure> {
    match kinds::rounded_to_i64(end) {
        Kind::Exact(n) => say_whole(to, n < 0, end),
        Kind::NotNumber => out(to, " not a number, taken as 0\n"),
        Kind::Below => out(to, " below range\n"),
        Kind::Above => out(to, " above range\n"),
    }
}

// An end of the columns, by its kind: there is none below 0.
fn say_column_kind(to: Stdout, end: f32) -> Result<(), Failure> {
    match kinds::rounded_to_u64(end) {
        Kind::Exact(n) => out(to, format_args!(" exactly {n}\n")),
        Kind::NotNumber => out(to, " not a number, taken as 0\n"),
        Kind::Below => out(to, " below range, taken as 0\n"),
        Kind::Above => out(to, " above range\n"),
    }
}

fn say_row(to: Stdout, name: &str, end: f32) -> Result<(), Failure> {
    out(to, name)?;
    say_row_kind(to, end)
}

fn say_column(to: Stdout, name: &str, end: f32) -> Result<(), Failure> {
    out(to, name)?;
    say_column_kind(to, end)
}

// Where a segment sits, and its four ends.
fn say_segment(to: Stdout, x: f32, y: f32, distance: f32) -> Result<(), Failure> {
    say_number(to, "centre by column", x)?;
    say_number(to, "centre by row", y)?;
    say_number(to, "distance", distance)?;
    say_row(to, "first row", y - distance)?;
    say_row(to, "last row", y + distance)?;
    say_column(to, "first column", x - distance)?;
    say_column(to, "last column", x + distance)
}

// The segment n of so many.
pub fn say(
    to: Stdout,
    segments: &[f32],
    owners: &[u64],
    segment_count: u32,
    n: u32,
) -> Result<(), Failure>
    ensures { Unit {0} }
{
    if segment_count <= n {
        return Err(wrong(
            Failure::WrongUse,
            format_args!("no segment has this number: there are {segment_count}, counted from 0\n"),
        ));
    }
    let k = n as usize;
    let owner = owners.get(k).ok_or(Failure::Refused)?;
    let segment = segments.get(8 * k..8 * k + 8).ok_or(Failure::Refused)?;
    out(to, format_args!("segment {n} of trace {owner}\n"))?;
    say_segment(to, segment[0], segment[1], segment[2])
}
