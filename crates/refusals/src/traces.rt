// Refusals of trace files, and of lists that are written, in words.
ghost use Rattle.std.specs.Prelude.{◌≡◌};

use codes::{Code, Refusal};
use words::{Failure, wrong};

// The number whose four bytes begin at a place, the least byte first; 0 where the file ends before.
fn number_at(bytes: &[u8], place: usize) -> u32 {
    match bytes.get(place..) {
        Some([a, b, c, d, ..]) => u32::from_le_bytes([*a, *b, *c, *d]),
        _ => 0,
    }
}

fn of_header(place: usize, number: u32) -> Failure
    ensures { result ≡ Failure.Refused }
{
    if place == 0 {
        wrong(
            Failure::Refused,
            format_args!(
                "refused: HEADER (17) at byte 0: version {number}, and there are 1 and 2\n"
            ),
        )
    } else {
        wrong(
            Failure::Refused,
            format_args!(
                "refused: HEADER (17) at byte {place}: an offset of {number}, and by the counts of the header it is another\n"
            ),
        )
    }
}

// What a trace file was refused for.
pub fn of_trace(refusal: Refusal, bytes: &[u8]) -> Failure
    ensures { result ≡ Failure.Refused }
{
    let (code, place) = refusal;
    let splines = number_at(bytes, 4);
    let points = number_at(bytes, 8);
    let here = number_at(bytes, place);
    let signed = here.cast_signed();
    match code {
        Code::Short => wrong(
            Failure::Refused,
            format_args!(
                "refused: SHORT (1) at byte {place}: the trace file ends here, and more is due\n"
            ),
        ),
        Code::Header => of_header(place, here),
        Code::Edition => wrong(
            Failure::Refused,
            format_args!(
                "refused: EDITION (22) at byte {place}: an edition is 1 or 2, and a file of version 1 holds edition 1\n"
            ),
        ),
        Code::Trail => wrong(
            Failure::Refused,
            format_args!(
                "refused: TRAIL (6) at byte {place}: the trace file goes on after its last coefficient\n"
            ),
        ),
        Code::Shape => wrong(
            Failure::Refused,
            format_args!(
                "refused: SHAPE (9): the points of the splines do not add up to those of the header, {points}\n"
            ),
        ),
        Code::Coord => wrong(
            Failure::Refused,
            format_args!(
                "refused: COORD (3) at byte {place}: {signed} as a coordinate of a start, and it must be from -8388608 through 8388607\n"
            ),
        ),
        Code::Delta => wrong(
            Failure::Refused,
            format_args!(
                "refused: DELTA (5) at byte {place}: {signed} in a double delta, and magnitudes must be below 1073741824\n"
            ),
        ),
        Code::Room => wrong(
            Failure::Refused,
            format_args!(
                "refused: ROOM (7): {splines} splines and {points} points, and this program has room for 4096 and 1048576\n"
            ),
        ),
        _ => {
            let number = u32::from(code);
            wrong(
                Failure::Refused,
                format_args!("refused: code {number} at byte {place}\n"),
            )
        }
    }
}

// What a description of so many splines was refused for as a list under this limit.
pub fn of_writing(refusal: Refusal, splines: usize, limit: u32) -> Failure
    ensures { result ≡ Failure.Refused }
{
    let (code, place) = refusal;
    match code {
        Code::Splines => wrong(
            Failure::Refused,
            format_args!(
                "refused: SPLINES (2) at value {place}: {splines} splines, and a list has from 1 through {limit}\n"
            ),
        ),
        Code::Coord => wrong(
            Failure::Refused,
            format_args!(
                "refused: COORD (3) at value {place}: a start that no list holds: negative and the first of all, or of a magnitude that is not below 8388608\n"
            ),
        ),
        Code::Room => wrong(
            Failure::Refused,
            format_args!(
                "refused: ROOM (7) at value {place}: the list goes on, and this program has room for so many values\n"
            ),
        ),
        _ => {
            let number = u32::from(code);
            wrong(
                Failure::Refused,
                format_args!("refused: code {number} at value {place}\n"),
            )
        }
    }
}
