// Refusals in words: the code's name and number, the place, and what stands there.
ghost use Rattle.std.specs.Prelude.{◌≡◌};

use codes::{Code, Refusal};
use words::{Failure, wrong};

// The value at a place; 0 where there is none.
fn value_at(list: &[u32], place: usize) -> u32 {
    list.get(place).copied().unwrap_or(0)
}

// The splines of a list: its first value is one less.
fn splines_of(list: &[u32]) -> u64 {
    list.first().map_or(0, |&value| u64::from(value) + 1)
}

// The first start is unsigned, a later one a step from the one before.
fn of_start(place: usize, x: u32, y: u32) -> Failure
    ensures { result ≡ Failure.Refused }
{
    if place == 1 {
        wrong(
            Failure::Refused,
            format_args!(
                "refused: COORD (3) at value 1: {x}, {y} puts a start at a coordinate whose magnitude is not below 8388608\n"
            ),
        )
    } else {
        let x = list::unpack_signed(x);
        let y = list::unpack_signed(y);
        wrong(
            Failure::Refused,
            format_args!(
                "refused: COORD (3) at value {place}: a step of {x}, {y} puts a start at a coordinate whose magnitude is not below 8388608\n"
            ),
        )
    }
}

// The splines have their room at the first value, the points where they are counted.
fn of_room(place: usize, splines: u64, points: u32) -> Failure
    ensures { result ≡ Failure.Refused }
{
    if place == 0 {
        wrong(
            Failure::Refused,
            format_args!(
                "refused: ROOM (7) at value 0: {splines} splines, and this program has room for 4096\n"
            ),
        )
    } else {
        wrong(
            Failure::Refused,
            format_args!(
                "refused: ROOM (7) at value {place}: {points} more points, and this program has room for 1048576 in all\n"
            ),
        )
    }
}

// What a list was refused for, under this limit for splines and for points.
pub fn of_reading(refusal: Refusal, list: &[u32], limit: u32) -> Failure
    ensures { result ≡ Failure.Refused }
{
    let (code, place) = refusal;
    let splines = splines_of(list);
    let rest = list.get(place..).unwrap_or(&[]);
    let here = value_at(rest, 0);
    let after = value_at(rest, 1);
    match code {
        Code::Short => wrong(
            Failure::Refused,
            format_args!(
                "refused: SHORT (1) at value {place}: the list ends here, and another value is due\n"
            ),
        ),
        Code::Splines => wrong(
            Failure::Refused,
            format_args!(
                "refused: SPLINES (2) at value {place}: {splines} splines, and the limit is {limit}\n"
            ),
        ),
        Code::Coord => of_start(place, here, after),
        Code::Points => wrong(
            Failure::Refused,
            format_args!(
                "refused: POINTS (4) at value {place}: {here} more points, and the limit for all is {limit}\n"
            ),
        ),
        Code::Delta => {
            let x = list::unpack_signed(here);
            let y = list::unpack_signed(after);
            wrong(
                Failure::Refused,
                format_args!(
                    "refused: DELTA (5) at value {place}: a double delta of {x}, {y}, and magnitudes must be below 1073741824\n"
                ),
            )
        }
        Code::Trail => wrong(
            Failure::Refused,
            format_args!(
                "refused: TRAIL (6) at value {place}: the list goes on after its last spline, with {here}\n"
            ),
        ),
        Code::Room => of_room(place, splines, here),
        _ => {
            let number = u32::from(code);
            wrong(
                Failure::Refused,
                format_args!("refused: code {number} at value {place}\n"),
            )
        }
    }
}

// What a description was refused for, but for rooms.
pub fn of_building(refusal: Refusal) -> Failure
    ensures { result ≡ Failure.Refused }
{
    let (code, spline) = refusal;
    match code {
        Code::Position => wrong(
            Failure::Refused,
            format_args!(
                "refused: POSITION (10) at spline {spline}: a point whose coordinates are not within 8388608\n"
            ),
        ),
        Code::Distance => wrong(
            Failure::Refused,
            format_args!(
                "refused: DISTANCE (11) at spline {spline}: its steps add up to more than the area limit\n"
            ),
        ),
        Code::Area => wrong(
            Failure::Refused,
            format_args!(
                "refused: AREA (12) at spline {spline}: with it the estimates add up to more than the area limit\n"
            ),
        ),
        Code::Coincide => wrong(
            Failure::Refused,
            format_args!(
                "refused: COINCIDE (13) at spline {spline}: two control points that follow each other are equal\n"
            ),
        ),
        _ => {
            let number = u32::from(code);
            wrong(
                Failure::Refused,
                format_args!("refused: code {number} at spline {spline}\n"),
            )
        }
    }
}
