// Refusals of texts of points, and of splines that have none, in words.
ghost use Rattle.std.specs.Prelude.{◌≡◌};

use codes::{Code, Refusal};
use words::{Failure, wrong};

// A text that ends too early, or has another byte than is due.
fn of_text(trace: u64, place: usize, length: usize) -> Failure
    ensures { result ≡ Failure.Refused }
{
    if place == length {
        wrong(
            Failure::Refused,
            format_args!(
                "refused: TEXT (18) at trace {trace}, byte {place} of its points: the text ends here, and a whole pair x,y is due\n"
            ),
        )
    } else {
        wrong(
            Failure::Refused,
            format_args!(
                "refused: TEXT (18) at trace {trace}, byte {place} of its points: due are pairs x,y of whole numbers with one space between pairs, and this byte is not\n"
            ),
        )
    }
}

// What the points of a trace were refused for, a text of so many bytes.
pub fn of_points(refusal: Refusal, trace: u64, length: usize) -> Failure
    ensures { result ≡ Failure.Refused }
{
    let (code, place) = refusal;
    match code {
        Code::Text => of_text(trace, place, length),
        Code::Position => wrong(
            Failure::Refused,
            format_args!(
                "refused: POSITION (10) at trace {trace}, byte {place} of its points: a point, or the step to it, is not within 8388608\n"
            ),
        ),
        Code::Coincide => wrong(
            Failure::Refused,
            format_args!(
                "refused: COINCIDE (13) at trace {trace}, byte {place} of its points: this point is the one before it\n"
            ),
        ),
        Code::Room => wrong(
            Failure::Refused,
            format_args!(
                "refused: ROOM (7) at trace {trace}: it has more double deltas than this program has room for, 1048576\n"
            ),
        ),
        _ => {
            let number = u32::from(code);
            wrong(
                Failure::Refused,
                format_args!("refused: code {number} at trace {trace}\n"),
            )
        }
    }
}
