// Whole numbers as decimal digits in a text: stored where there are cells for them, and counted all the same.
#![tactic(auto)]

ghost use Rattle.std.specs.Prelude.{◌≡◌, Bool, ◌+◌, ◌-◌, ◌≤◌, ◌<◌, length, set};
ghost use Rattle.std.proofs.lemmas.List.Edits.{sets};
ghost use Rattle.control_points.specs.ControlPoints.{in_range};
ghost use Rattle.polyline.specs.Write.{digits_of, number_text};

// A value, where there is a cell for it.
pub fn put<T: Copy>(cells: &mut [T], at: usize, value: T)
    ensures { cells.new ≡ set cells.old at value }
{
    if at < cells.len() {
        cells[at] = value;
    }
}

// How many digits a number has.
fn width(n: u32) -> usize
    ensures { result ≡ length (digits_of n) }
{
    let mut left = n;
    let mut w = 1;
    // No `for`: how many tenth parts there are is what is asked.
    while 10 <= left {
        left /= 10;
        w += 1;
    }
    w
}

// The byte of a digit.
fn digit_byte(d: u32) -> u8
    requires { d < 10 }
    ensures { result ≡ 48 + d }
{
    b'0' + d as u8
}

// The digits of a number that end before a byte, the last of them first.
fn put_back(text: &mut [u8], end: usize, n: u32)
    requires { length (digits_of n) ≤ end }
    ensures { text.new ≡ sets text.old (end - length (digits_of n)) (digits_of n) }
{
    let mut left = n;
    let mut i = end;
    // No `for`: the digits end where nothing is left of the number.
    while 10 <= left {
        i -= 1;
        put(text, i, digit_byte(left % 10));
        left /= 10;
    }
    put(text, i - 1, digit_byte(left));
}

// The digits of a number from a byte on: where they end.
fn put_digits(text: &mut [u8], at: usize, n: u32) -> usize
    requires { at < 18446744073000000000 }
    ensures { (text.new ≡ sets text.old at (digits_of n)) × (result ≡ at + length (digits_of n)) }
{
    let end = at + width(n);
    put_back(text, end, n);
    end
}

// A position with its sign.
pub fn put_number(text: &mut [u8], at: usize, v: i32) -> usize
    requires { (at < 18446744000000000000) × (in_range v ≡ Bool.true) }
    ensures { (text.new ≡ sets text.old at (number_text v)) × (result ≡ at + length (number_text v)) × (result ≤ at + 8) }
{
    if v < 0 {
        put(text, at, b'-');
        put_digits(text, at + 1, v.unsigned_abs())
    } else {
        put_digits(text, at, v.unsigned_abs())
    }
}
