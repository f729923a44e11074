// What a description holds, in words.
use crate::Source;
use std::io::Stdout;
use words::{Failure, out};

fn say_counts(
    to: Stdout,
    source: Source,
    splines: usize,
    points: usize,
    adjustment: i32,
) -> Result<(), Failure> {
    match source {
        Source::List(values) => out(
            to,
            format_args!(
                "{values} values: {splines} splines, {points} points, adjustment {adjustment}\n"
            ),
        ),
        Source::File(bytes, edition) => out(
            to,
            format_args!(
                "{bytes} bytes: {splines} splines, {points} points, adjustment {adjustment}, edition {edition}\n"
            ),
        ),
    }
}

fn say_spline(to: Stdout, k: usize, start: &[f32], points: u32) -> Result<(), Failure> {
    let &[x, y] = start else {
        return Ok(());
    };
    let x = kinds::saturating_f32_to_i32(x);
    let y = kinds::saturating_f32_to_i32(y);
    out(
        to,
        format_args!("spline {k} starts at {x}, {y} and has {points} points\n"),
    )
}

// What a description holds, in words.
pub fn say(
    to: Stdout,
    counts: &[u32],
    starts: &[f32],
    points: usize,
    adjustment: i32,
    source: Source,
) -> Result<(), Failure>
    ensures { Unit {0} }
{
    say_counts(to, source, counts.len(), points, adjustment)?;
    for (k, (&points, start)) in counts.iter().zip(starts.chunks_exact(2)).enumerate() {
        say_spline(to, k, start, points)?;
    }
    Ok(())
}
