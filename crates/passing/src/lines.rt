// A list as a text: a line each for the splines, the starts and the adjustment, and of each spline for the points, the double deltas and four rows of
// coefficients.
use std::fs::File;
use std::io::{Error, ErrorKind, Result};

// The first n values, and those behind them, unless the list is shorter than its counts say.
fn split(values: &[u32], n: usize) -> Result<(&[u32], &[u32])> {
    if values.len() < n {
        return Err(Error::from(ErrorKind::InvalidInput));
    }
    Ok(values.split_at(n))
}

// Writes the values in one line. No values make no line.
fn line(file: &File, values: &[u32]) -> Result<()> {
    let Some((last, before)) = values.split_last() else {
        return Ok(());
    };
    for value in before {
        words::tell_number(file, *value, b' ')?;
    }
    words::tell_number(file, *last, b'\n')
}

// The spline with which the values begin; those behind it.
fn spline<'v>(file: &File, values: &'v [u32], points: u32) -> Result<&'v [u32]> {
    let (count, rest) = split(values, 1)?;
    let (deltas, rest) = split(rest, 2 * points as usize)?;
    let (coefficients, rest) = split(rest, 128)?;
    line(file, count)?;
    line(file, deltas)?;
    for row in coefficients.chunks_exact(32) {
        line(file, row)?;
    }
    Ok(rest)
}

// The list of a description with these points.
pub fn write(file: &File, list: &[u32], counts: &[u32]) -> Result<()>
    ensures { Unit {0} }
{
    let (splines, rest) = split(list, 1)?;
    let (starts, rest) = split(rest, 2 * counts.len())?;
    let (adjustment, mut rest) = split(rest, 1)?;
    line(file, splines)?;
    line(file, starts)?;
    line(file, adjustment)?;
    for &points in counts {
        rest = spline(file, rest, points)?;
    }
    Ok(())
}
