// Goes through a points text byte by byte; when a pair ends, it is judged and its double delta stored.
#![tactic(auto)]

ghost use Rattle.std.specs.Prelude.{◌≡◌, ◌+◌, length};
ghost use Rattle.std.proofs.lemmas.List.Edits.{sets};
ghost use Rattle.polyline.specs.Spots.{capped_spots};
ghost use Rattle.polyline.specs.Read.{step_deltas};
ghost use Rattle.polyline_pairs.specs.Fits.{Small, OnTrack};
ghost use Rattle.polyline_scan.specs.Steps.{RunHeld, Spare, pair_ends, turned_of, end_deltas, turn_deltas, ScanLeaves};

use codes::Refusal;
use control_points::Pair;
use decimal::put;
use polyline::{Figure, Track};
use polyline_pairs::{double_delta, figure_at, grown, judge_pair, spot};

// The pair that is being read, what the pairs before it led to, and how many cells are stored.
#[derive(Clone, Copy, Debug, PartialEq, Eq)]
pub struct Run {
    pub figure: Figure,
    pub track: Option<Track>,
    pub held: usize,
}

// ---- one byte

// The double delta of a pair behind those that are held, where there is one.
#[tactic(auto, unfolding(polyline::specs::Read::step_deltas))]
fn store(track: Option<Track>, q: Pair, held: usize, deltas: &mut [i32]) -> usize
    requires { OnTrack track × Small q × Spare track held }
    ensures { (deltas.new ≡ sets deltas.old held (step_deltas track q)) × (result ≡ held + length (step_deltas track q)) }
{
    let Some(track) = track else {
        return held;
    };
    let d = double_delta(track.place, q);
    put(deltas, held, d.x);
    put(deltas, held + 1, d.y);
    held + 2
}

// A pair that ends: the next begins at `after`.
#[tactic(auto, unfolding(polyline::specs::Spots::spot_of, crate::specs::Steps::pair_ends, crate::specs::Steps::end_deltas))]
fn end_pair(run: Run, after: usize, deltas: &mut [i32]) -> Result<Run, Refusal>
    requires { RunHeld run × Spare run.track run.held }
    ensures { (result ≡ pair_ends run after) × (deltas.new ≡ sets deltas.old run.held (end_deltas run)) }
{
    let s = spot(run.figure);
    match judge_pair(run.track, s.point) {
        Ok(track) => Ok(Run {
            figure: figure_at(after),
            track: Some(track),
            held: store(run.track, s.point, run.held, deltas),
        }),
        Err(code) => Err((code, s.begin)),
    }
}

// One byte further.
#[tactic(auto, unfolding(crate::specs::Steps::turned_of, crate::specs::Steps::turn_deltas))]
fn turn(run: Run, b: u8, after: usize, deltas: &mut [i32]) -> Result<Run, Refusal>
    requires { RunHeld run × Spare run.track run.held }
    ensures { (result ≡ turned_of run b after) × (deltas.new ≡ sets deltas.old run.held (turn_deltas run b)) }
{
    if b == b' ' {
        return end_pair(run, after, deltas);
    }
    Ok(Run {
        figure: grown(run.figure, b),
        ..run
    })
}

// ---- a text

// All pairs of a text, with their double deltas stored from the first cell on as far as there are cells.
pub fn scan(text: &[u8], deltas: &mut [i32]) -> Result<Run, Refusal>
    ensures { ScanLeaves (capped_spots text.now) result deltas.old deltas.new }
{
    let mut run = Run {
        figure: figure_at(0),
        track: None,
        held: 0,
    };
    for (i, &b) in text.iter().enumerate() {
        run = turn(run, b, i + 1, deltas)?;
    }
    // The end of a text ends a pair, as a space does.
    turn(run, b' ', text.len() + 1, deltas)
}
