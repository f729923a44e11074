// What a build answers: a refusal, or the rows of the segments that are drawn, with zeros in every lent cell that is not used.
#![tactic(auto)]

ghost use Rattle.std.specs.Prelude.{◌≡◌, ◌*◌, ◌≤◌, ◌<◌, ◌^◌, length, take};
ghost use Rattle.rows.specs.Rows.{in_row, listed_rows};
ghost use Rattle.build_answer.specs.Answer.{rooms_of, leaves, refused_with, after_rows};

use codes::{Code, Refusal};
use rows::Scene;

// What a build has made: how many segments and entries, the estimate, and how many of the segments are faint.
#[derive(Clone, Copy, Debug, PartialEq, Eq)]
pub struct Built {
    pub segments: u32,
    pub entries: u32,
    pub estimate: u64,
    pub faint: u32,
}

// The six buffers are written, so each is lent by itself: a call that is lent a slice in a field holds the whole struct.

// A refusal, with every lent cell zero.
pub fn refuse(
    refusal: Refusal,
    path: &mut [f32],
    walk: &mut [f32],
    segments: &mut [f32],
    owners: &mut [u64],
    row_starts: &mut [u32],
    entries: &mut [u32],
) -> Result<Built, Refusal>
    ensures { leaves result path.new walk.new segments.new owners.new row_starts.new entries.new
        ≡ refused_with (rooms_of path.old walk.old segments.old owners.old row_starts.old entries.old) refusal.0 refusal.1 }
{
    wipe::wipe(path, walk, segments, owners, row_starts, entries);
    Err(refusal)
}

// The rows of the segments that are drawn, and zeros in what is not used.
pub fn list_segments(
    count: usize,
    height: u32,
    estimate: u64,
    path: &mut [f32],
    walk: &mut [f32],
    segments: &mut [f32],
    owners: &mut [u64],
    row_starts: &mut [u32],
    entries: &mut [u32],
) -> Result<Built, Refusal>
    requires { (8 * count ≤ length segments.old) × (count ≤ length owners.old) × (count ≤ 2 ^ 24) × (height ≤ 2 ^ 23) × (height < length row_starts.old) }
    ensures { leaves result path.new walk.new segments.new owners.new row_starts.new entries.new
        ≡ after_rows (rooms_of path.old walk.old segments.old owners.old row_starts.old entries.old) estimate count (take (8 * count) segments.old) (take count owners.old) (listed_rows (in_row segments.old) count height (length row_starts.old) (length entries.old)) }
{
    let scene = Scene {
        segments,
        count,
        height: height as usize,
    };
    let listed = rows::list_rows(&scene, row_starts, entries);
    let Some(entry_count) = listed else {
        return refuse(
            (Code::Room, 0),
            path,
            walk,
            segments,
            owners,
            row_starts,
            entries,
        );
    };
    let faint = faint::faint_in(segments, count);
    wipe::wipe_unused(count, path, walk, segments, owners);
    Ok(Built {
        segments: count as u32,
        entries: entry_count,
        estimate,
        faint,
    })
}
