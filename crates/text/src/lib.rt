// Decimal numbers in a text, with white space between them.
#![tactic(auto)]

ghost use Rattle.std.specs.Prelude.{◌≡◌, ◌-◌, ◌≤◌, length, get_or};
ghost use Rattle.text.specs.Text.{is_space, space_of, digit_of, step_of, ended, text_of, TurnLeaves, ReadAs, line_of};

// What the next byte makes of the number that the text stands in, if it stands in one: the text goes on, a number ends, the byte is no part of a number, or the number is 2^32 or more. `step_of` and `follow` speak of these four cases.
#[derive(Clone, Copy, Debug, PartialEq, Eq)]
pub enum Step {
    On(Option<u32>),
    Ends(u32),
    Stranger,
    Great,
}

// The error of a reading: why it stops, and at which byte: it is no part of a number, the number grows to 2^32, or the number that it ends finds no cell.
#[derive(Clone, Copy, Debug, PartialEq, Eq)]
pub enum ParseError {
    Stranger(usize),
    Great(usize),
    Full(usize),
}

fn after_space(inside: Option<u32>) -> Step
    ensures { result ≡ space_of inside }
{
    match inside {
        None => Step::On(None),
        Some(n) => Step::Ends(n),
    }
}

fn after_digit(inside: Option<u32>, d: u8) -> Step
    requires { d ≤ 9 }
    ensures { result ≡ digit_of inside d }
{
    let Some(n) = inside else {
        return Step::On(Some(u32::from(d)));
    };
    let more = 10 * u64::from(n) + u64::from(d);
    match u32::try_from(more) {
        Ok(more) => Step::On(Some(more)),
        Err(_) => Step::Great,
    }
}

// A space, or one of tab, line feed, vertical tab, form feed and carriage return. std's `is_ascii_whitespace` has no vertical tab.
pub fn is_space(b: u8) -> bool
    ensures { result ≡ is_space b }
{
    matches!(b, b' ' | 9..=13)
}

#[tactic(auto, unfolding(crate::specs::Text::step_of))]
fn step_on(inside: Option<u32>, b: u8) -> Step
    ensures { result ≡ step_of inside b }
{
    if is_space(b) {
        after_space(inside)
    } else if b.is_ascii_digit() {
        after_digit(inside, b - b'0')
    } else {
        Step::Stranger
    }
}

// A byte, or white space at the end of the text.
fn byte_at(text: &[u8], i: usize) -> u8
    requires { i ≤ length text.now }
    ensures { result ≡ get_or (ended text.now) i 0 }
{
    if i < text.len() { text[i] } else { b' ' }
}

// One byte further: a number that ends is stored behind the `held` numbers before it.
fn turn(
    inside: Option<u32>,
    held: usize,
    b: u8,
    i: usize,
    values: &mut [u32],
) -> Result<(Option<u32>, usize), ParseError>
    requires { held ≤ length values.old }
    ensures { TurnLeaves (length values.old - held) i held (step_of inside b) result values.old values.new }
{
    match step_on(inside, b) {
        Step::On(on) => Ok((on, held)),
        Step::Ends(n) => {
            if held == values.len() {
                return Err(ParseError::Full(i));
            }
            values[held] = n;
            Ok((None, held + 1))
        }
        Step::Stranger => Err(ParseError::Stranger(i)),
        Step::Great => Err(ParseError::Great(i)),
    }
}

// The numbers of a text, stored from the first cell on: how many they are.
pub fn values_of(text: &[u8], values: &mut [u32]) -> Result<usize, ParseError>
    ensures { ReadAs (text_of (length values.old) text.now) result values.new }
{
    let mut inside = None;
    let mut held = 0;
    for i in 0..text.len() + 1 {
        (inside, held) = turn(inside, held, byte_at(text, i), i, values)?;
    }
    Ok(held)
}

// The line that a byte stands in, from 1 on.
pub fn line_of(text: &[u8], at: usize) -> usize
    ensures { result ≡ line_of text.now at }
{
    1 + text.iter().take(at).filter(|&&b| b == b'\n').count()
}
