// Which room a build was refused for. A build of no rows needs no entries, and what its area is limited to at level 10 is above every limit at
// level 5: so it is refused for the path, the walk or the segments only. A first spline is never refused for segments: there is room for more of them
// than for points of a walk.
#![tactic(auto)]

ghost use Rattle.std.specs.Prelude.{◌≡◌};

use codes::Code;
use segments::Segment;
use shape::Description;
use table::Setting;
use words::{Failure, wrong};

// A description drawn in this precision, and its rows left out: how many segments it has, or the spline that has no room. Here and below each room
// is a parameter of its own: over a struct of `&mut` slices the proof did not close (`draw`).
fn draw_all(
    description: &Description<'_>,
    adjustment: i32,
    high_precision: bool,
    path: &mut [f32],
    walk: &mut [f32],
    segments: &mut [f32],
    owners: &mut [u64],
) -> Result<u32, usize> {
    let mut row_starts = [0u32; 1];
    let mut entries = [0u32; 1];
    let setting = Setting {
        adjustment,
        width: 0,
        height: 0,
        y_to_x: 0.0,
        y_to_b: 1.0,
        high_precision,
        level10: true,
    };
    match table::build(
        description,
        setting,
        path,
        walk,
        segments,
        owners,
        &mut row_starts,
        &mut entries,
    ) {
        Ok(built) => Ok(built.segments),
        Err((_, k)) => Err(k),
    }
}

// How many rows of the image a segment has.
fn rows_of(segments: &[f32], i: u32, height: u32) -> u64 {
    let at = i as usize;
    if segments.len() / 8 <= at {
        return 0;
    }
    let rows = Segment::at(segments, at).rows();
    u64::from(rows.past.min(height).saturating_sub(rows.first))
}

// The entries that the rows of so many segments need.
fn entries_of(segments: &[f32], count: u32, height: u32) -> u64 {
    let mut sum: u64 = 0;
    for i in 0..count {
        sum = sum.saturating_add(rows_of(segments, i, height));
    }
    sum
}

// The double deltas before the spline k, two numbers a point, as far as a list that was read has them.
fn deltas_before(counts: &[u32], k: usize) -> usize {
    let mut at: usize = 0;
    for &count in counts.iter().take(k) {
        at = at.saturating_add(2 * count as usize);
    }
    at
}

// The description from the spline k on.
fn from_spline<'a>(description: &Description<'a>, k: usize) -> Option<Description<'a>> {
    let at = deltas_before(description.counts, k);
    if description.counts.len() <= k
        || description.starts.len() / 2 <= k
        || description.deltas.len() < at
        || description.coefficients.len() / 128 <= k
    {
        return None;
    }
    Some(Description {
        counts: &description.counts[k..],
        starts: &description.starts[2 * k..],
        deltas: &description.deltas[at..],
        coefficients: &description.coefficients[128 * k..],
    })
}

// A spline of n points has a path of 16 n + 1.
fn of_path(k: usize, n: u32) -> Failure
    ensures { result ≡ Failure.Refused }
{
    let points = 16 * u64::from(n) + 1;
    wrong(
        Failure::Refused,
        format_args!(
            "refused: ROOM (7) at spline {k}: its path has {points} points, and this program has room for 65536\n"
        ),
    )
}

fn of_walk(k: usize) -> Failure
    ensures { result ≡ Failure.Refused }
{
    wrong(
        Failure::Refused,
        format_args!(
            "refused: ROOM (7) at spline {k}: its walk has more points than this program has room for, 65536\n"
        ),
    )
}

fn of_segments(k: usize) -> Failure
    ensures { result ≡ Failure.Refused }
{
    wrong(
        Failure::Refused,
        format_args!(
            "refused: ROOM (7) at spline {k}: with it there are more segments than this program has room for, 1048576\n"
        ),
    )
}

fn of_entries(needed: u64) -> Failure
    ensures { result ≡ Failure.Refused }
{
    wrong(
        Failure::Refused,
        format_args!(
            "refused: ROOM (7) at spline 0: the rows of all splines have {needed} entries, and this program has room for 16777216\n"
        ),
    )
}

// The spline k has no room: its path, which its points tell; its walk, which then has no room as the first of all either; or the segments.
fn of_spline(
    description: &Description<'_>,
    adjustment: i32,
    k: usize,
    path: &mut [f32],
    walk: &mut [f32],
    segments: &mut [f32],
    owners: &mut [u64],
) -> Failure
    ensures { result ≡ Failure.Refused }
{
    let Some(rest) = from_spline(description, k) else {
        return refusals::of_building((Code::Room, k));
    };
    match rest.counts.first() {
        Some(&n) if 4095 < n => return of_path(k, n),
        _ => {}
    }
    match draw_all(&rest, adjustment, false, path, walk, segments, owners) {
        Err(0) => of_walk(k),
        _ => of_segments(k),
    }
}

// Which room of the program was too short for a description that was refused for ROOM.
pub fn of_room(
    description: &Description<'_>,
    adjustment: i32,
    height: u32,
    high: bool,
    path: &mut [f32],
    walk: &mut [f32],
    segments: &mut [f32],
    owners: &mut [u64],
) -> Failure
    ensures { result ≡ Failure.Refused }
{
    match draw_all(description, adjustment, high, path, walk, segments, owners) {
        Ok(count) => of_entries(entries_of(segments, count, height)),
        Err(k) => of_spline(description, adjustment, k, path, walk, segments, owners),
    }
}
