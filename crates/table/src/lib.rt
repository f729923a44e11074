// The build: all splines to segments, and the rows that list them, in lent buffers. All checks come before any drawing, and a refusal leaves
// every lent cell zero.
#![tactic(auto)]

ghost use Rattle.std.specs.Prelude.{◌≡◌, ◌≤◌, ◌<◌, ◌^◌, length};
ghost use Rattle.dequantize.specs.Judge.{Shaped, description_in};
ghost use Rattle.curve.specs.Curve.{path_room};
ghost use Rattle.walk.specs.Walk.{walk_room};
ghost use Rattle.owners.specs.Owners.{owned_room};
ghost use Rattle.painting.specs.Painting.{Passed, paint_of};
ghost use Rattle.table.specs.Table.{rooms_of, setting_in, given_of, leaves, after_paint, build_of};

pub use build_answer::Built;
use build_answer::{list_segments, refuse};
use codes::{Code, Refusal};
use dequantize::Given;
use shape::Description;

// What a build is given beside the description.
#[derive(Clone, Copy, Debug, PartialEq)]
pub struct Setting {
    pub adjustment: i32,
    pub width: u32,
    pub height: u32,
    pub y_to_x: f32,
    pub y_to_b: f32,
    pub high_precision: bool,
    pub level10: bool,
}

fn given_of(setting: Setting) -> Given
    ensures { result ≡ given_of (setting_in setting) }
{
    let area = u64::from(setting.width) * u64::from(setting.height);
    Given {
        adjustment: setting.adjustment,
        y_to_x: setting.y_to_x,
        y_to_b: setting.y_to_b,
        limit: dequantize::limits::spline_area_limit(setting.level10, area),
    }
}

// The six buffers are written, so each is lent by itself: a call that is lent a slice in a field holds the whole struct.

// The table of a description that was judged.
fn paint(
    description: &Description<'_>,
    given: Given,
    high_precision: bool,
    height: u32,
    estimate: u64,
    path: &mut [f32],
    walk: &mut [f32],
    segments: &mut [f32],
    owners: &mut [u64],
    row_starts: &mut [u32],
    entries: &mut [u32],
) -> Result<Built, Refusal>
    requires { Shaped (description_in description.now) × Passed (description_in description.now) given × (height ≤ 2 ^ 23) × (height < length row_starts.old) }
    ensures { leaves result path.new walk.new segments.new owners.new row_starts.new entries.new
        ≡ after_paint (rooms_of path.old walk.old segments.old owners.old row_starts.old entries.old) height estimate (paint_of (description_in description.now) given high_precision (path_room (length path.old)) (walk_room (length walk.old)) (owned_room (length segments.old) (length owners.old))) }
{
    match painting::draw_all(
        description,
        given,
        high_precision,
        path,
        walk,
        segments,
        owners,
    ) {
        Err(k) => refuse(
            (Code::Room, k),
            path,
            walk,
            segments,
            owners,
            row_starts,
            entries,
        ),
        Ok(count) => list_segments(
            count, height, estimate, path, walk, segments, owners, row_starts, entries,
        ),
    }
}

// The whole table, or a refusal with every lent cell zero.
pub fn build(
    description: &Description<'_>,
    setting: Setting,
    path: &mut [f32],
    walk: &mut [f32],
    segments: &mut [f32],
    owners: &mut [u64],
    row_starts: &mut [u32],
    entries: &mut [u32],
) -> Result<Built, Refusal>
    ensures { leaves result path.new walk.new segments.new owners.new row_starts.new entries.new
        ≡ build_of (description_in description.now) (setting_in setting) (rooms_of path.old walk.old segments.old owners.old row_starts.old entries.old) }
{
    let given = given_of(setting);
    let rows = row_starts.len();
    match verdict::judge_all(description, given, setting.width, setting.height, rows) {
        Err(refusal) => refuse(refusal, path, walk, segments, owners, row_starts, entries),
        Ok(estimate) => paint(
            description,
            given,
            setting.high_precision,
            setting.height,
            estimate,
            path,
            walk,
            segments,
            owners,
            row_starts,
            entries,
        ),
    }
}
