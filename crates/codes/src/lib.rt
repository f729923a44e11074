// The codes of an answer, and each code's number.
#![tactic(auto)]

ghost use Rattle.std.specs.Prelude.{◌≡◌};
ghost use Rattle.codes.specs.Codes.{number_of};

#[derive(Clone, Copy, Debug, PartialEq, Eq)]
pub enum Code {
    // No refusal: number 0 of the C interface's table of codes, which number_of holds here.
    Done = 0,
    Short = 1,
    Splines = 2,
    Coord = 3,
    Points = 4,
    Delta = 5,
    Trail = 6,
    Room = 7,
    Size = 8,
    Shape = 9,
    Position = 10,
    Distance = 11,
    Area = 12,
    Coincide = 13,
    Table = 14,
    Row = 15,
    Span = 16,
    Header = 17,
    Text = 18,
    Desk = 19,
    Trace = 20,
    Profile = 21,
    Edition = 22,
    Band = 23,
}

// A refusal: a code, and the place that it names.
pub type Refusal = (Code, usize);

impl From<Code> for u32 {
    ghost from_gives = { λ c n. n ≡ number_of c };

    fn from(code: Code) -> u32 {
        // An enum's number is had by a cast alone; a `match` would write all of them again.
        code as u32
    }
}
