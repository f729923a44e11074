// `gauge table`: the row starts and the entries of a table as numbers; and `gauge check`: whether another maker's, in a text of that form, are those of this picture.
#![tactic(auto)]

use checks::Table;
use files::Named;
use segments::Segment;
use std::fmt::Display;
use std::io::Stdout;
use words::{Failure, out, out_number, wrong};

// A start of 16385 takes nine bytes and an entry of 2^24 takes eight, each with what parts it from the next; and more, so that a text that fills it is known to be too long.
const BYTES: usize = 135266304;

// As many starts and entries as a table of this program has.
const NUMBERS: usize = 16793601;

// ---- ours

// Numbers, each on a line.
fn say_numbers(to: Stdout, numbers: &[u32]) -> Result<(), Failure> {
    for number in numbers {
        out_number(to, *number, b'\n')?;
    }
    Ok(())
}

// The row starts of a picture, one more than its rows, and then the entries.
pub fn say(to: Stdout, table: &Table<'_>) -> Result<(), Failure>
    ensures { Unit {0} }
{
    let starts = table.height as usize + 1;
    let listed = table.entry_count as usize;
    let starts = table.row_starts.get(..starts).ok_or(Failure::Refused)?;
    let entries = table.entries.get(..listed).ok_or(Failure::Refused)?;
    say_numbers(to, starts)?;
    say_numbers(to, entries)
}

// ---- what is wrong with a row

// Whether segment i has row y.
fn has_row(segments: &[f32], i: u32, y: u32) -> bool {
    let at = i as usize;
    if segments.len() / 8 <= at {
        return false;
    }
    let rows = Segment::at(segments, at).rows();
    rows.first <= y && y < rows.past
}

// What is wrong with a row.
fn of_row<D: Display + Drop>(y: u32, what: D) -> Failure {
    wrong(
        Failure::Refused,
        format_args!("TABLE (14) at row {y}: {what}\n"),
    )
}

// What is wrong with an entry, which stands behind another where it is not the first, if anything is.
fn of_entry(table: &Table<'_>, y: u32, i: u32, behind: Option<u32>) -> Option<Failure> {
    let segment_count = table.segment_count;
    if segment_count <= i {
        return Some(of_row(
            y,
            format_args!("it lists segment {i}, and there are {segment_count}, counted from 0"),
        ));
    }
    if !has_row(table.segments, i, y) {
        return Some(of_row(
            y,
            format_args!("it lists segment {i}, which does not have this row"),
        ));
    }
    match behind {
        Some(before) if i <= before => Some(of_row(
            y,
            format_args!("it lists segment {i} behind segment {before}"),
        )),
        _ => None,
    }
}

// What is wrong with the entries of a row, one after another; or too few are listed.
fn of_entries(table: &Table<'_>, y: u32, row: &[u32]) -> Failure {
    let mut behind = None;
    for &i in row {
        if let Some(failure) = of_entry(table, y, i, behind) {
            return failure;
        }
        behind = Some(i);
    }
    let listed = row.len();
    let due = (0..table.segment_count)
        .filter(|&i| has_row(table.segments, i, y))
        .count();
    of_row(
        y,
        format_args!("it lists {listed} segments, and {due} have it"),
    )
}

// What is wrong with a row that begins and ends there.
fn of_bounds(table: &Table<'_>, y: u32, first: u32, past: u32) -> Failure {
    if y == 0 && 0 < first {
        return of_row(y, format_args!("its start is {first}, and 0 is due"));
    }
    if past < first {
        return of_row(
            y,
            format_args!("it starts at {first}, and the next one before that, at {past}"),
        );
    }
    let listed = table.entries.len();
    match table.entries.get(first as usize..past as usize) {
        Some(row) => of_entries(table, y, row),
        None => of_row(
            y,
            format_args!("it ends at {past}, and there are {listed} entries"),
        ),
    }
}

// What is wrong at a place: a row, or the height, where entries are left over.
fn of_place(table: &Table<'_>, place: usize) -> Failure {
    if place < table.height as usize && place + 1 < table.row_starts.len() {
        return of_bounds(
            table,
            place as u32,
            table.row_starts[place],
            table.row_starts[place + 1],
        );
    }
    wrong(
        Failure::Refused,
        "TABLE (14): entries are left behind the last row, or there are more than a table may have\n",
    )
}

// ---- another maker's

// Whether a table is that of the picture.
fn check_table(to: Stdout, table: &Table<'_>) -> Result<(), Failure> {
    let entries = makers_search::check(table).map_err(|(_, place)| of_place(table, place))?;
    out(
        to,
        format_args!("yes: this is the table of the picture, with {entries} entries\n"),
    )
}

// Whether the numbers are the row starts and the entries of the table of this picture.
fn check_numbers(to: Stdout, ours: &Table<'_>, numbers: &[u32]) -> Result<(), Failure> {
    let starts = ours.height as usize + 1;
    let n = numbers.len();
    if n < starts {
        return Err(wrong(
            Failure::Refused,
            format_args!("SHAPE (9): {starts} row starts are due, and there are {n} numbers\n"),
        ));
    }
    let entries = &numbers[starts..];
    let entry_count = u32::try_from(entries.len()).map_err(|_| Failure::Refused)?;
    check_table(
        to,
        &Table {
            row_starts: &numbers[..starts],
            entries,
            entry_count,
            ..*ours
        },
    )
}

// The same of the numbers that a text of this name has, which go to a room. Rooms are lent as arrays: the length of each is then known by its type, and no proof counts its cells.
fn check_parsed(
    to: Stdout,
    ours: &Table<'_>,
    name: &[u8],
    text: &[u8],
    numbers: &mut [u32; NUMBERS],
) -> Result<(), Failure> {
    let n = files::parse(name, text, numbers)?;
    check_numbers(to, ours, &numbers[..n])
}

fn check_text(to: Stdout, ours: &Table<'_>, name: &[u8], text: &[u8]) -> Result<(), Failure> {
    let mut numbers = [0u32; NUMBERS];
    check_parsed(to, ours, name, text, &mut numbers)
}

// The same of the named file, whose bytes go to a room.
fn check_file(
    to: Stdout,
    ours: &Table<'_>,
    named: Named<'_>,
    bytes: &mut [u8; BYTES],
) -> Result<(), Failure> {
    match files::load(named, bytes)? {
        None => Err(files::too_long(named.name, BYTES - 1)),
        Some(n) => check_text(to, ours, named.name, &bytes[..n]),
    }
}

// Whether the named file holds the row starts and the entries of the table of this picture.
pub fn check(to: Stdout, ours: &Table<'_>, named: Named<'_>) -> Result<(), Failure>
    ensures { Unit {0} }
{
    let mut bytes = [0u8; BYTES];
    check_file(to, ours, named, &mut bytes)
}
