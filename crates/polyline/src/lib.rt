// Line drawings: the form of a points text, what it says, and what reading and writing one find. Definitions and their laws only.
#![tactic(auto)]

use control_points::{Pair, Stand};

// Where a points text stands inside a pair: before a number, after its minus, after a 0, or after digits that may go on. The number is y where the bool is true.
#[derive(Clone, Copy, Debug, PartialEq, Eq)]
pub enum Stage {
    Fresh(bool),
    Minus(bool),
    Nought(bool),
    Digits(bool),
}

// The pair that is being read: where it begins, its x once that is known, and the number so far.
#[derive(Clone, Copy, Debug, PartialEq, Eq)]
pub struct Figure {
    pub begin: usize,
    pub x: i32,
    pub negative: bool,
    pub size: u32,
}

// A whole pair, and its first byte.
#[derive(Clone, Copy, Debug, PartialEq, Eq)]
pub struct Spot {
    pub begin: usize,
    pub point: Pair,
}

// What the pairs so far led to: a control point with the delta that led to it, and the first pair.
#[derive(Clone, Copy, Debug, PartialEq, Eq)]
pub struct Track {
    pub place: Stand,
    pub start: Pair,
}
