// Judges the form of a points text: TEXT at the first byte that may not stand where it does, or at the end where more is due.
// A bool y says that the number is the second of its pair.
#![tactic(auto)]

ghost use Rattle.std.specs.Prelude.{◌≡◌};
ghost use Rattle.polyline.specs.declared.Stage.{Stage};
ghost use Rattle.polyline.specs.Stages.{lead_of, begin_of, end_of, next_of, may_end, text_of};

use codes::{Code, Refusal};
use polyline::Stage;

// The first digit of a number that is not 0.
fn lead(y: bool, b: u8) -> Option<Stage>
    ensures { result ≡ lead_of y b }
{
    match b {
        b'1'..=b'9' => Some(Stage::Digits(y)),
        _ => None,
    }
}

// The first byte of a number.
fn begin(y: bool, b: u8) -> Option<Stage>
    ensures { result ≡ begin_of y b }
{
    match b {
        b'-' => Some(Stage::Minus(y)),
        b'0' => Some(Stage::Nought(y)),
        _ => lead(y, b),
    }
}

// The byte behind a number.
fn end(y: bool, b: u8) -> Option<Stage>
    ensures { result ≡ end_of y b }
{
    match (y, b) {
        (false, b',') => Some(Stage::Fresh(true)),
        (true, b' ') => Some(Stage::Fresh(false)),
        _ => None,
    }
}

// A further digit, or the byte behind the number.
#[tactic(auto, unfolding(polyline::specs::Stages::next_of))]
fn digit(y: bool, b: u8) -> Option<Stage>
    ensures { result ≡ next_of (Stage.Digits y) b }
{
    match b {
        b'0'..=b'9' => Some(Stage::Digits(y)),
        _ => end(y, b),
    }
}

#[tactic(auto, unfolding(polyline::specs::Stages::next_of))]
fn next_stage(stage: Stage, b: u8) -> Option<Stage>
    ensures { result ≡ next_of stage b }
{
    match stage {
        Stage::Fresh(y) => begin(y, b),
        Stage::Minus(y) => lead(y, b),
        Stage::Nought(y) => end(y, b),
        Stage::Digits(y) => digit(y, b),
    }
}

// Whether a text may end here: with a whole second number.
#[tactic(auto, unfolding(polyline::specs::Stages::may_end))]
fn may_end(stage: Stage) -> bool
    ensures { result ≡ may_end stage }
{
    matches!(stage, Stage::Nought(true) | Stage::Digits(true))
}

pub fn judge_form(text: &[u8]) -> Result<(), Refusal>
    ensures { result ≡ text_of text.now }
{
    let mut stage = Stage::Fresh(false);
    for (i, &b) in text.iter().enumerate() {
        stage = next_stage(stage, b).ok_or((Code::Text, i))?;
    }
    if may_end(stage) {
        Ok(())
    } else {
        Err((Code::Text, text.len()))
    }
}
