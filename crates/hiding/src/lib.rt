// The shared bytes of a description, a byte a spline, with the splines hidden whose numbers a text holds, with white space between them.
#![tactic(auto)]

use words::{Failure, wrong};

// As many as a description of this program has splines.
const NUMBERS: usize = 4096;

// As many bytes as their numbers take, of four digits each, with a mark behind each.
const BYTES: usize = 20480;

// Room for a text, and for one byte more: one that fills it is too long.
pub const ROOM: usize = 20481;

fn no_numbers() -> Failure {
    wrong(
        Failure::WrongUse,
        "--hide takes numbers of traces with commas between them, as 3,7\n",
    )
}

// Hides each of these for the desk.
fn hide_each(numbers: &[u32], desk: u32, bits: &mut [u8]) -> Result<(), Failure> {
    let splines = bits.len();
    for &number in numbers {
        if let Err(_) = desks::hide(bits, desk, u64::from(number), true) {
            return Err(wrong(
                Failure::WrongUse,
                format_args!(
                    "no trace has the number {number}: there are {splines}, counted from 0\n"
                ),
            ));
        }
    }
    Ok(())
}

// Hides for the desk what a text holds, whose numbers go to a room. The room is lent as an array: its length is then known by its type, and no proof counts its cells.
fn hide_text(
    text: &[u8],
    desk: u32,
    bits: &mut [u8],
    numbers: &mut [u32; NUMBERS],
) -> Result<(), Failure> {
    match text::values_of(text, numbers) {
        Ok(n) => hide_each(numbers.get(..n).ok_or(Failure::Refused)?, desk, bits),
        Err(_) => Err(no_numbers()),
    }
}

// Hides for the desk what a text names, nothing where it is empty. One that is too long is not cut short.
pub fn hide_named(text: &[u8], desk: u32, bits: &mut [u8]) -> Result<(), Failure>
    ensures { Unit {0} }
{
    if text.is_empty() {
        return Ok(());
    }
    if BYTES < text.len() {
        return Err(no_numbers());
    }
    let mut numbers = [0u32; NUMBERS];
    hide_text(text, desk, bits, &mut numbers)
}
