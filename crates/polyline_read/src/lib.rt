// Reads a points text into a lent start and lent double deltas, with zeros behind, or says what is wrong and where.
// The form is judged first. Then the text is gone through, and its first pair is the start.
#![tactic(auto)]

ghost use Rattle.std.specs.Prelude.{◌≡◌, Bool, [], ◌∷◌, ◌≤◌, length};
ghost use Rattle.std.proofs.lemmas.List.Edits.{sets};
ghost use Rattle.list.specs.Steps.{f32_of};
ghost use Rattle.control_points.specs.ControlPoints.{valid_point_pos};
ghost use Rattle.polyline.specs.Spots.{spots_of};
ghost use Rattle.polyline.specs.Read.{leaves, pairs_verdict, points_verdict, read_points_of};
ghost use Rattle.polyline_read.specs.Steps.{TextLeaves};

use buffers::clear;
use codes::{Code, Refusal};
use control_points::Pair;
use polyline_form::judge_form;
use polyline_scan::scan;
use read_steps::start_of;

// The first pair as a start.
fn put_start(p: Pair, start: &mut [f32])
    requires { (valid_point_pos p ≡ Bool.true) × (2 ≤ length start.old) }
    ensures { start.new ≡ sets start.old 0 (f32_of p.x ∷ f32_of p.y ∷ []) }
{
    start[0] = start_of(i64::from(p.x));
    start[1] = start_of(i64::from(p.y));
}

// A text of the form: its pairs, then the room.
fn read_pairs(text: &[u8], start: &mut [f32], deltas: &mut [i32]) -> Result<usize, Refusal>
    ensures { TextLeaves (spots_of text.now) (pairs_verdict (length start.old) (length deltas.old) (spots_of text.now)) result start.old start.new deltas.old deltas.new }
{
    let run = scan(text, deltas)?;
    if start.len() < 2 || deltas.len() < run.held {
        return Err((Code::Room, 0));
    }
    // A text has a pair, since its end ends one.
    let Some(track) = run.track else {
        return Err((Code::Room, 0));
    };
    put_start(track.start, start);
    Ok(run.held / 2)
}

// TEXT before all else.
fn read_text(text: &[u8], start: &mut [f32], deltas: &mut [i32]) -> Result<usize, Refusal>
    ensures { TextLeaves (spots_of text.now) (points_verdict (length start.old) (length deltas.old) text.now) result start.old start.new deltas.old deltas.new }
{
    judge_form(text)?;
    read_pairs(text, start, deltas)
}

// How many double deltas were read, or what refuses the text, and where.
pub fn points_read(text: &[u8], start: &mut [f32], deltas: &mut [i32]) -> Result<usize, Refusal>
    ensures { leaves result start.new deltas.new ≡ read_points_of (length start.old) (length deltas.old) text.now }
{
    clear(start);
    clear(deltas);
    let answer = read_text(text, start, deltas);
    if answer.is_err() {
        clear(deltas);
    }
    answer
}
