// `gauge touch`: the traces that have a pixel, the nearest first.
#![tactic(auto)]

use std::io::Stdout;
use words::{Failure, out};

// As many traces as a list that is read has at most.
const TRACES: usize = 4096;

// A trace by its key: its number is the lower half, and the upper one is more by 1 than how far it is, in hundredths of a pixel.
fn say_trace(to: Stdout, key: u64) -> Result<(), Failure> {
    let trace = key % 4294967296;
    let far = (key / 4294967296).saturating_sub(1);
    let pixels = far / 100;
    let hundredths = far % 100;
    out(
        to,
        format_args!("trace {trace}, {pixels}.{hundredths:02} pixels away\n"),
    )
}

// Each of the traces by its key.
fn say_found(to: Stdout, keys: &[u64]) -> Result<(), Failure> {
    if keys.is_empty() {
        return out(to, "no trace\n");
    }
    for &key in keys {
        say_trace(to, key)?;
    }
    Ok(())
}

// The traces among so many segments that have the pixel in column x and row y. Beyond 2^24 no image has a pixel.
pub fn say(
    to: Stdout,
    segments: &[f32],
    owners: &[u64],
    segment_count: u32,
    x: u32,
    y: u32,
) -> Result<(), Failure>
    ensures { Unit {0} }
{
    let mut cells = [0u64; TRACES];
    let mut found = [0u64; TRACES];
    let count = segment_count as usize;
    if segments.len() / 8 < count || owners.len() < count || 16777216 <= x || 16777216 <= y {
        return Err(Failure::Refused);
    }
    let n = touch::traces(segments, owners, count, x, y, &mut cells, &mut found);
    say_found(to, &found[..n])
}
